// Two guard files as one, for a procedure nested in another (request #107). `specs/Merge.antt` of `merged` says what is merged and what is
// asked, `specs/Writer.antt` of `filewriter` how a guard is written.
#![tactic(auto)]

ghost use Rattle.std.specs.Prelude.{◌≡◌, ◌+◌, ◌≤◌, length, replicate, OnOk};
ghost use Rattle.guard.specs.Limits.{base};
ghost use Rattle.merged.specs.Merge.{merged_file};
ghost use Rattle.filewriter.specs.Writer.{Answered, answer_to, left_by};
ghost use Rattle.mergewriter.specs.Merging.{TwoGuards};
ghost use Rattle.merge.specs.Questions.{AnswersBoth, AsksBoth};

use guard::Question;
use reader::Tables;
use renaming::Names;

// The questions after 15, asked of two guards with the same types.
fn ask(first: &Tables, second: &Tables, n: &Names) -> Result<(), Question>
    requires { TwoGuards first.now second.now }
    ensures asks { AsksBoth first.now second.now n.now result }
    ensures room { OnOk result ((n.now.rows ≤ 24) × (first.now.literals.many + second.now.literals.many ≤ 32)) }
{
    if !n.agree {
        return Err(Question::VariablesDiffer);
    }
    if 24 < n.rows {
        return Err(Question::TooMany);
    }
    let lines = first.literals.many + second.literals.many;
    if 32 < lines {
        return Err(Question::TooMany);
    }
    Ok(())
}

// The file of two guards with the same types, in a buffer of zeros.
fn merge_guards(first: &Tables, second: &Tables, out: &mut [u8]) -> Result<usize, Question>
    requires two_guards { TwoGuards first.now second.now }
    requires out_value { out.old ≡ replicate (length out.old) 0 }
    ensures { AnswersBoth first.now second.now out.old result out.new }
{
    let n = renaming::names_of(first.rows, second.rows);
    ask(first, second, &n)?;
    let Some(end) = mergewriter::put_merged(first, second, &n, out) else {
        bytebuffer::clear(out);
        return Err(Question::FileTooLong);
    };
    Ok(end)
}

// The file of a guard that holds exactly where both do, zeros behind it, and the number of its bytes; or the first question that gets a no, and
// nothing but zeros.
pub fn merge(first: &[u8], second: &[u8], out: &mut [u8]) -> Result<usize, Question>
    ensures value { Answered (answer_to (merged_file base first.now second.now) (length out.old)) result }
    ensures out_after { out.new ≡ left_by (merged_file base first.now second.now) (length out.old) }
{
    bytebuffer::clear(out);
    let a = reader::read(first, 6, 24, 32)?;
    let b = reader::read(second, 6, 24, 32)?;
    if !sametypes::same_types(a.types, b.types) {
        return Err(Question::TypesDiffer);
    }
    merge_guards(&a, &b, out)
}
