// The value of a constant. Document 02, #104: it runs over 64 bits, and is written as a number is, with up to ten bytes and at most
// 18,446,744,073,709,551,615 as written.
#![tactic(auto)]

ghost use Rattle.std.specs.Prelude.{◌≡◌, ◌<◌, ◌≤◌, drop, leb, length};
ghost use Rattle.guard.specs.Number.{fold_signed, unfold_signed, value_of_groups, well_formed, width64};
ghost use Rattle.numbers.specs.Reader.{Reads};
ghost use Rattle.values.specs.Values.{value};

use guard::Question;
use numbers::Read;

// Whether 64 bits hold the groups, which may have 70. The first five have 35 bits, so 29 are left for the others.
fn fits(number: &[u8]) -> bool
    requires { (0 < length number.now) × (length number.now ≤ 10) }
    ensures { result ≡ leb (value_of_groups number.now) 18446744073709551615 }
{
    if number.len() <= 5 {
        return true;
    }
    leb128::value_of(&number[5..]) < 536870912
}

// The value of the groups, where 64 bits hold it. The sixth group has the weight 128 to the fifth.
fn value_of(number: &[u8]) -> u64
    requires { (0 < length number.now) × (length number.now ≤ 10) × (value_of_groups number.now ≤ 18446744073709551615) }
    ensures { result ≡ value_of_groups number.now }
{
    if number.len() <= 5 {
        return leb128::value_of(number);
    }
    let low = leb128::value_of(&number[..5]);
    let high = leb128::value_of(&number[5..]);
    low + high * 34359738368
}

// Whether the bytes are in the form of a number of 64 bits. A tenth byte may have bit 80, which says that more follow; a last byte of
// 00 adds nothing, unless it stands alone.
fn well_formed(number: &[u8]) -> bool
    requires { (0 < length number.now) × (length number.now ≤ 10) }
    ensures { result ≡ well_formed width64 number.now }
{
    let count = number.len();
    let last = number[count - 1];
    if 128 <= last {
        return false;
    }
    if count <= 1 {
        return true;
    }
    last != 0 && fits(number)
}

// The value at `at`, any place in the bytes or past them.
pub fn read_value(bytes: &[u8], at: usize) -> Result<Read<i64>, Question>
    ensures { Reads (value (drop at bytes.now)) bytes.now result }
{
    let count = leb128::byte_count(bytes, at, 10);
    if count == 0 {
        return Err(Question::Truncated);
    }
    let next = at + count;
    let number = &bytes[at..next];
    if !well_formed(number) {
        return Err(Question::Malformed);
    }
    Ok(Read {
        value: unfold(value_of(number)),
        at: next,
    })
}

// The signed value that is written as `n`.
pub fn unfold(n: u64) -> i64
    ensures { result ≡ unfold_signed n }
{
    let half = (n / 2) as i64;
    if n % 2 == 0 {
        return half;
    }
    -1 - half
}

// What a signed value is written as. −1 − v fits where −v does not, at the lowest value.
pub fn fold(v: i64) -> u64
    ensures { result ≡ fold_signed v }
{
    if v < 0 {
        return ((-1 - v) as u64) * 2 + 1;
    }
    (v as u64) * 2
}
