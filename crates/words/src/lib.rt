// A value of 64 bits and the two numbers of 32 bits that its row holds (document 02, #104).
#![tactic(auto)]

ghost use Rattle.std.specs.Prelude.{◌≡◌, ◌<◌};
ghost use Rattle.guard.specs.Words.{high_of, low_of, signed_word, unsigned_word, value_of, word};

// 32 bits as a signed number.
fn signed_word(n: u64) -> i32
    requires { n < word }
    ensures { result ≡ signed_word n }
{
    if n < 2147483648 {
        return n as i32;
    }
    -1 - (4294967295 - n) as i32
}

// The same bits as an unsigned number.
fn unsigned_word(low: i32) -> u64
    ensures value { result ≡ unsigned_word low }
    ensures upper_bound { result < word }
{
    if low < 0 {
        return 4294967295 - (-1 - low) as u64;
    }
    low as u64
}

// The two numbers of a value in its row: its low 32 bits as a signed number, and what is above them.
#[derive(Clone, Copy)]
pub struct Words {
    pub low: i32,
    pub high: i32,
}

// A negative value goes by −1 − value, which always fits and has every bit turned.
pub fn words_of(value: i64) -> Words
    ensures low_value { result.low ≡ low_of value }
    ensures high_value { result.high ≡ high_of value }
{
    if value < 0 {
        let turned = (-1 - value) as u64;
        let low = signed_word(4294967295 - turned % 4294967296);
        let high = -1 - (turned / 4294967296) as i32;
        return Words { low, high };
    }
    let n = value as u64;
    let low = signed_word(n % 4294967296);
    let high = (n / 4294967296) as i32;
    Words { low, high }
}

// The value of two such numbers.
pub fn value_of(low: i32, high: i32) -> i64
    ensures { result ≡ value_of low high }
{
    let bits = unsigned_word(low);
    if high < 0 {
        let above = (-1 - high) as u64;
        return -1 - (4294967296 * above + (4294967295 - bits)) as i64;
    }
    (4294967296 * (high as u64) + bits) as i64
}
