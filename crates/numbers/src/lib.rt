// Numbers of the guard file, read at a cursor, and what a signed number is written as. Document 01: a number has one to five
// bytes, each with seven bits of it, the low group first; bit 80 is set in all bytes but the last; it has
// the fewest bytes, and is at most 4,294,967,295.
#![tactic(auto)]

ghost use Rattle.std.specs.Prelude.{◌≡◌, drop};
ghost use Rattle.guard.specs.Number.{fold_signed, unsigned};
ghost use Rattle.guard.specs.Question.{number_of};
ghost use Rattle.numbers.specs.Reader.{Reads, ReadsBelow, below};

use guard::Question;

// What was read, and the cursor behind it.
#[derive(Clone, Copy)]
pub struct Read<T> {
    pub value: T,
    pub at: usize,
}

// The number at `at`, any place in the bytes or past them.
pub fn read_number(bytes: &[u8], at: usize) -> Result<Read<u32>, Question>
    ensures { Reads (unsigned (drop at bytes.now)) bytes.now result }
{
    let count = leb128::byte_count(bytes, at, 5);
    if count == 0 {
        return Err(Question::Truncated);
    }
    let next = at + count;
    let number = &bytes[at..next];
    let value = leb128::value_of(number);
    if !leb128::well_formed(number, value) {
        return Err(Question::Malformed);
    }
    Ok(Read {
        value: value as u32,
        at: next,
    })
}

// The same, with a quick look at the first byte: a count, a name or a kind mostly has no other.
fn read_short(bytes: &[u8], at: usize) -> Result<Read<u32>, Question>
    ensures { Reads (unsigned (drop at bytes.now)) bytes.now result }
{
    if at < bytes.len() {
        let first = bytes[at];
        if first < 128 {
            return Ok(Read {
                value: first as u32,
                at: at + 1,
            });
        }
    }
    read_number(bytes, at)
}

// The number at `at`, refused by `question` unless it is below `limit`; what refuses the number itself becomes the caller's error.
pub fn read_below<E: From<Question> + Drop>(
    bytes: &[u8],
    at: usize,
    limit: u32,
    question: E,
) -> Result<Read<u32>, E>
    ensures { ReadsBelow E.from_gives (unsigned (drop at bytes.now)) bytes.now limit question result }
{
    let n = read_short(bytes, at)?;
    if limit <= n.value {
        return Err(question);
    }
    Ok(n)
}

// The same for a question of documents 01 and 02.
pub fn read_asked(
    bytes: &[u8],
    at: usize,
    limit: u32,
    question: Question,
) -> Result<Read<u32>, Question>
    ensures { Reads (below limit (number_of question) (drop at bytes.now)) bytes.now result }
{
    read_below(bytes, at, limit, question)
}

// What a signed value is written as. −1 − v fits where −v does not, at the lowest value.
pub fn fold_signed(v: i32) -> u32
    ensures { result ≡ fold_signed v }
{
    if v < 0 {
        return ((-1 - v) as u32) * 2 + 1;
    }
    (v as u32) * 2
}
