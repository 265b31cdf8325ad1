// The summary kept with each guard (request #114): made anew from a guard file, and brought up to date when a line is added. `summaries` says
// what it holds (`specs/Summary.antt`), what is asked and what is left in the buffer (`specs/AddedLine.antt`).
#![tactic(auto)]

ghost use Rattle.std.specs.Prelude.{◌≡◌, length};
ghost use Rattle.numbers.specs.Reader.{ReadsAll};
ghost use Rattle.summaries.specs.AddedLine.{asks_file, asks_line, brought, made_anew};
ghost use Rattle.summary.specs.Passed.{passed};

use guard::Question;

// Makes the summary of the guard in a file anew: row i in numbers 2 × i and 2 × i + 1 of the buffer. After a question that gets a no the
// buffer is as it was.
pub fn summarize(file: &[u8], budget: u32, summary: &mut [u16]) -> Result<(), Question>
    ensures value { ReadsAll (passed (asks_file file.now (length summary.old))) result }
    ensures summary_after { summary.new ≡ made_anew budget summary.old (asks_file file.now (length summary.old)) }
{
    if summary.len() < 48 {
        return Err(Question::ShortBuffer);
    }
    let t = reader::read(file, 6, 24, 32)?;
    variantmasks::fill(t.types, t.rows, t.literals, budget, true, summary);
    Ok(())
}

// Brings the summary of the guard in a file up to date with a line that is added to the guard.
pub fn add_line(file: &[u8], line: &[u8], budget: u32, summary: &mut [u16]) -> Result<(), Question>
    ensures value { ReadsAll (passed (asks_line file.now line.now (length summary.old))) result }
    ensures summary_after { summary.new ≡ brought budget summary.old (asks_line file.now line.now (length summary.old)) }
{
    if summary.len() < 48 {
        return Err(Question::ShortBuffer);
    }
    let t = reader::read(file, 6, 24, 32)?;
    let lines = addedline::read_line(t.types, t.rows, t.literals, line)?;
    variantmasks::fill(t.types, t.rows, lines, budget, false, summary);
    Ok(())
}
