// The record of a closed search in a lent buffer, whole or not at all. `specs/Records.antt` says what is written.
#![tactic(auto)]

ghost use Rattle.std.specs.Prelude.{◌≡◌, length};
ghost use Rattle.problem.specs.Columns.{problem_by};
ghost use Rattle.roots.specs.Guards.{GuardsTables};
ghost use Rattle.recordwriter.specs.Records.{IsRecord, Records};

use problem::Problem;
use reader::Tables;

// Fills the buffer with the record of an accepted guard and zeros behind it: how many bytes the record has; or with zeros alone and none,
// if it outgrows the buffer.
#[tactic(auto, using(crate::proofs::RecordLaws::record_fits, crate::proofs::RecordLaws::record_outgrows))]
pub fn write_record(tables: &Tables, problem: &Problem, out: &mut [u8]) -> Option<usize>
    requires guards_tables { GuardsTables tables.now }
    requires problem_value { problem.now ≡ problem_by tables.now }
    ensures { Records tables.now result out.old out.new }
{
    bytebuffer::clear(out);
    let Some(many) = rootwriter::write_root(tables, problem, out) else {
        bytebuffer::clear(out);
        return None;
    };
    Some(many)
}

// The same, handed back as the filled front part of the buffer.
#[tactic(auto, using(crate::proofs::RecordLaws::front_part, crate::proofs::RecordLaws::part_length))]
pub fn record_part<'a>(tables: &Tables, problem: &Problem, out: &'a mut [u8]) -> &'a mut [u8]
    requires guards_tables { GuardsTables tables.now }
    requires problem_value { problem.now ≡ problem_by tables.now }
    ensures { IsRecord tables.now (length out.old) result.now }
{
    let many = write_record(tables, problem, out).unwrap_or(0);
    &mut out[..many]
}
