// Writes a guard file from a list of its numbers, constants as their values. `specs/Writer.antt` says what it gives.
#![tactic(auto)]

ghost use Rattle.std.specs.Prelude.{◌≡◌, ◌≢◌, length, IfErr};
ghost use Rattle.guard.specs.Limits.{base};
ghost use Rattle.guard.specs.Question.{number_of};
ghost use Rattle.serialize.specs.NumberList.{list_file};
ghost use Rattle.filewriter.specs.Marking.{HasTokens, NumberMarked, PutsTokens, WrittenAs};
ghost use Rattle.filewriter.specs.Writer.{Answered, answer_to, left_by};

use bytebuffer::Writer;
use guard::Question;

// What a number of the list is written as. A value is folded.
fn written_number(x: i64, mark: u8) -> u64
    requires { NumberMarked x mark }
    ensures { WrittenAs x mark result }
{
    if mark == 1 {
        return values::fold(x);
    }
    x as u64
}

// The bytes of all numbers, from the start of the buffer on.
#[tactic(auto, using(crate::proofs::TokenLaws::number_laws))]
fn put_numbers(list: &[i64], marks: &[u8; 640], out: &mut [u8]) -> Option<usize>
    requires { HasTokens list.now marks.now }
    ensures { PutsTokens list.now marks.now out.old result out.new }
{
    let mut writer = Writer::new(out);
    for i in 0..list.len() {
        let n = written_number(list[i], marks[i]);
        numberwriter::put_number(&mut writer, n)?;
    }
    Some(writer.at)
}

// Fills the buffer with the bytes of the list and zeros behind them, and tells how many bytes they are; with zeros alone where the list
// is refused, or its bytes outgrow the buffer. Document 02, #104: "The writer's 3 no longer occurs."
pub fn write(list: &[i64], out: &mut [u8]) -> Result<usize, Question>
    ensures value { Answered (answer_to (list_file base list.now) (length out.old)) result }
    ensures not_malformed { IfErr result (λ q. number_of q ≢ 3) }
    ensures out_after { out.new ≡ left_by (list_file base list.now) (length out.old) }
{
    bytebuffer::clear(out);
    let t = listreader::read_list(list)?;
    // Behind the rows stand L and three numbers for each line.
    let rows_end = list.len() - 1 - 3 * t.literals.many;
    let mut marks = [0u8; 640];
    valuemarks::mark_values(&t.types, &t.rows, rows_end, &mut marks);
    let Some(end) = put_numbers(list, &marks, out) else {
        bytebuffer::clear(out);
        return Err(Question::FileTooLong);
    };
    Ok(end)
}
