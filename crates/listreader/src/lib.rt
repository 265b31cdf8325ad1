// Reads a guard file that is given as a list of its numbers. The list is written as plain bytes, one for each number, and the
// reader of bytes answers for it: where a count, a name or a kind stands, a byte of 127 gets the same no as any larger or
// negative number; where a constant's value stands, any byte is read on.
#![tactic(auto)]

ghost use Rattle.std.specs.Prelude.{◌≡◌, ◌≢◌, length, IfErr};
ghost use Rattle.guard.specs.Limits.{base};
ghost use Rattle.guard.specs.Number.{fold_signed};
ghost use Rattle.guard.specs.Question.{number_of};
ghost use Rattle.serialize.specs.NumberList.{list_file};
ghost use Rattle.listreader.specs.ListReader.{ReadsList};
ghost use Rattle.listreader.specs.Plain.{plain_byte, room};
ghost use Rattle.listreader.specs.Written.{Written};

use guard::Question;
use reader::Tables;

// The byte that stands for a number.
fn plain_byte(x: i64) -> u8
    ensures { result ≡ plain_byte (fold_signed x) }
{
    if x < 0 || 127 < x {
        return 127;
    }
    x as u8
}

// Writes the plain bytes of the list, and tells how many they are. No file has more than 441 numbers, so the 442nd already shows that the
// list goes on.
fn plain_bytes(list: &[i64], out: &mut [u8; 448]) -> usize
    requires { length out.old ≡ room }
    ensures { Written list.now out.new result }
{
    let many = list.len().min(448);
    for i in 0..many {
        let x = list[i];
        out[i] = plain_byte(x);
    }
    many
}

// The tables of a guard file given as a list of its numbers, but for the values of its constants; or the first question that gets a
// no, 18 of the types among them. Document 02, #104: "The writer's 3 no longer occurs."
pub fn read_list(list: &[i64]) -> Result<Tables, Question>
    ensures reads_list { ReadsList (list_file base list.now) result }
    ensures not_malformed { IfErr result (λ q. number_of q ≢ 3) }
{
    let mut out = [0u8; 448];
    let many = plain_bytes(list, &mut out);
    numbertypes::types_question(&out[..many])?;
    reader::read(&out[..many], 6, 24, 32)
}
