// The checker of records: reads the record of a closed search against a guard file. `specs/Checks.antt` says what it gives.
#![tactic(auto)]

ghost use Rattle.std.specs.Prelude.{◌≡◌};
ghost use Rattle.guard.specs.Limits.{base};
ghost use Rattle.numbers.specs.Reader.{ReadsAll};
ghost use Rattle.problem.specs.Columns.{problem_by};
ghost use Rattle.roots.specs.Guards.{GuardsTables};
ghost use Rattle.refutations.specs.Checker.{checked};
ghost use Rattle.recordchecker.specs.Checks.{ChecksRoot, ChecksTables};

use guard::Question;
use problem::Problem;
use reader::Tables;

// The root of an accepted guard and all below it, from the record's first byte on.
#[tactic(auto, using(crate::proofs::RootChecked::root_checked))]
fn check_root(tables: &Tables, problem: &Problem, written: &[u8]) -> Result<usize, Question>
    requires guards_tables { GuardsTables tables.now }
    requires problem_value { problem.now ≡ problem_by tables.now }
    ensures { ChecksRoot tables.now written.now result }
{
    let root = roots::root_of(tables, problem);
    let mut state = root.state;
    nodechecker::check_node(&mut state, &root.instance, &root.reads, written, 0)
}

// The record against the tables of a guard; it ends with the last branch.
fn check_tables(tables: &Tables, written: &[u8]) -> Result<(), Question>
    requires { GuardsTables tables.now }
    ensures { ChecksTables tables.now written.now result }
{
    let problem = problem::problem_of(*tables);
    let end = check_root(tables, &problem, written)?;
    if end < written.len() {
        return Err(Question::RecordEnd);
    }
    Ok(())
}

// A record against a guard file: the first question that gets a no is one of 2 to 10, asked of the file, or 12 or 13.
pub fn check(file: &[u8], written: &[u8]) -> Result<(), Question>
    ensures { ReadsAll (checked base file.now written.now) result }
{
    let t = reader::read(file, 6, 24, 32)?;
    check_tables(&t, written)
}
