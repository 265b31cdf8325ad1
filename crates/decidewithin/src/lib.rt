// The desk's call for any caller's limits: a guard file, a budget and two lent buffers to an answer. `specs/Decides.antt` says what it gives,
// `specs/CallerLimits.antt` what the limits are.
#![tactic(auto)]

ghost use Rattle.std.specs.Prelude.{◌≡◌, pos, length, min, replicate};
ghost use Rattle.guard.specs.Limits.{row_buffer};
ghost use Rattle.guard.specs.Question.{number_of};
ghost use Rattle.guard.specs.declared.Answer.TheVariants.{Refused};
ghost use Rattle.decidewithin.specs.CallerLimits.{limits_for};
ghost use Rattle.decidewithin.specs.Decides.{Decides};

use cleared::clear_both;
use guard::{Answer, Question};
use searchanswer::answer_search;

// The numbers that the row buffer of a caller with these limits has at least.
fn row_buffer(types: u32, terms: u32) -> usize
    ensures { result ≡ row_buffer (limits_for types terms 0) }
{
    if types > 3 {
        return 16384;
    }
    if terms > 8 {
        return 16384;
    }
    4096
}

// The numbers that the place buffer has at least.
fn place_buffer(terms: u32) -> usize
    ensures { result ≡ min terms 24 }
{
    if terms < 24 {
        return terms as usize;
    }
    24
}

// The answer after a question that got a no; both buffers are cleared.
fn refuse(question: Question, rows: &mut [i32], places: &mut [i32]) -> Answer
    ensures value { result ≡ Refused (number_of question) }
    ensures rows_after { rows.new ≡ replicate (length rows.old) (pos 0) }
    ensures places_after { places.new ≡ replicate (length places.old) (pos 0) }
{
    clear_both(rows, places);
    Answer::Refused {
        question: question.number(),
    }
}

// The answer to a guard file within these limits and a budget of nodes. After SAT the buffers show messages, else they are all 0.
pub fn decide_within(
    types: u32,
    terms: u32,
    lines: u32,
    file: &[u8],
    budget: u32,
    rows: &mut [i32],
    places: &mut [i32],
) -> Answer
    ensures { Decides (limits_for types terms lines) file.now budget rows.old places.old result rows.new places.new }
{
    if rows.len() < row_buffer(types, terms) {
        return refuse(Question::ShortBuffer, rows, places);
    }
    if places.len() < place_buffer(terms) {
        return refuse(Question::ShortBuffer, rows, places);
    }
    match reader::read(file, types, terms, lines) {
        Ok(t) => answer_search(&t, budget, rows, places),
        Err(q) => refuse(q, rows, places),
    }
}
