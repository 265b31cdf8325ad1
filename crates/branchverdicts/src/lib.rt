// What the desk says of the branches of a procedure and of each pair of them (document 02, #113): a file, a budget and a lent buffer to a
// number for each branch, then for each pair. `specs/Verdicts.antt` of `branches` says what the numbers are.
#![tactic(auto)]

ghost use Rattle.std.specs.Prelude.{◌≡◌, ◌+◌, ◌-◌, ◌≤◌, length, replicate};
ghost use Rattle.branches.specs.Verdicts.{asks_of, left_in};
ghost use Rattle.numbers.specs.Reader.{ReadsAll};
ghost use Rattle.branchverdicts.specs.Judging.{Fills, PutsPairs, PutsWith, Taken, TakenWith, count_in};

use branchreader::{Procedure, no_lines, read_procedure};
use guard::Question;
use tables::LiteralTable;

// For each branch from one on, the number for these lines with those of the branch behind them; the place after the last number.
fn put_with(
    t: Procedure,
    first: LiteralTable,
    from: usize,
    budget: u32,
    out: &mut [u8],
    at: usize,
) -> usize
    requires taken_with { TakenWith t first }
    requires from_le_many { from ≤ t.many }
    requires from_in_bounds { at + (t.many - from) ≤ length out.old }
    ensures { PutsWith t first from budget out.old at result out.new }
{
    let mut next = at;
    for j in from..t.many {
        let second = t.lines[j];
        out[next] = verdicts::verdict_on(&t.types, &t.rows, &first, &second, budget).code();
        next += 1;
    }
    next
}

// For each pair, by lower branch, then higher, the number for the lines of both; the place after the last.
fn put_pairs(t: Procedure, budget: u32, out: &mut [u8], at: usize) -> usize
    requires taken { Taken t }
    requires at_in_bounds { at + 28 ≤ length out.old }
    ensures { PutsPairs t budget out.old at result out.new }
{
    let lines = t.lines;
    let mut next = at;
    for i in 0..t.many {
        let first = lines[i];
        next = put_with(t, first, i + 1, budget, out, next);
    }
    next
}

// All numbers of a procedure, in a buffer of zeros.
fn fill(t: Procedure, budget: u32, out: &mut [u8])
    requires taken { Taken t }
    requires in_bounds { 36 ≤ length out.old }
    requires out_value { out.old ≡ replicate (length out.old) 0 }
    ensures { Fills t budget out.old out.new }
{
    let none = no_lines();
    let next = put_with(t, none, 0, budget, out, 0);
    put_pairs(t, budget, out, next);
}

// The numbers of the branches and of their pairs in front of the buffer, zeros behind them; nothing but zeros after a refusal. Answers how many
// branches there are.
pub fn judge_branches(file: &[u8], budget: u32, out: &mut [u8]) -> Result<usize, Question>
    ensures value { ReadsAll (count_in (asks_of file.now (length out.old))) result }
    ensures out_after { out.new ≡ left_in budget (length out.old) (asks_of file.now (length out.old)) }
{
    bytebuffer::clear(out);
    if out.len() < 36 {
        return Err(Question::ShortBuffer);
    }
    let t = read_procedure(file)?;
    fill(t, budget, out);
    Ok(t.many)
}
