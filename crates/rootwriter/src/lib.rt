// The record of a guard from its root on: an entry for each node, in the order of the search.
#![tactic(auto)]

ghost use Rattle.std.specs.Prelude.{◌≡◌};
ghost use Rattle.problem.specs.Columns.{problem_by};
ghost use Rattle.roots.specs.Guards.{GuardsTables};
ghost use Rattle.rootwriter.specs.RootRecord.{RootPuts};

use bytebuffer::Writer;
use problem::Problem;
use reader::Tables;

// The record of an accepted guard with its problem, from the start of the buffer on: how many bytes it has, or none where it outgrows
// the buffer.
pub fn write_root(tables: &Tables, problem: &Problem, out: &mut [u8]) -> Option<usize>
    requires guards_tables { GuardsTables tables.now }
    requires problem_value { problem.now ≡ problem_by tables.now }
    ensures { RootPuts tables.now out.old result out.new }
{
    let mut root = roots::root_of(tables, problem);
    let mut writer = Writer::new(out);
    nodewriter::write_node(&mut root.state, &root.instance, &root.reads, &mut writer)?;
    Some(writer.at)
}
