// Words and numbers as text, behind what a writer has written. A text fits: each function asks for room for the longest that it puts.
// `Display` is no plainer: rows aren't values but places in a lent buffer, and `write!` has an error that a text with room never has.
#![tactic(auto)]

ghost use Rattle.std.specs.Prelude.{◌≡◌, ◌++◌, ◌+◌, ◌≤◌, pos, length, get_or};
ghost use Rattle.writing.specs.Words.{decimal, number_text, signed};
ghost use Rattle.writing.specs.Wrote.{HasRoom, Wrote};

use bytebuffer::Writer;

#[tactic(auto, using(crate::proofs::Wrote::byte_laws))]
pub fn put_bytes(out: &mut Writer, text: &[u8])
    requires { HasRoom (length text.now) out.old }
    ensures { Wrote (length text.now) text.now out.old out.new }
{
    out.put(text).unwrap();
}

pub fn put_number(out: &mut Writer, n: u32)
    requires { HasRoom 10 out.old }
    ensures { Wrote 10 (decimal n) out.old out.new }
{
    let mut digits = [0u8; 20];
    let k = io::decimal(n as u64, &mut digits);
    put_bytes(out, &digits[..k]);
}

// A number after a word.
pub fn put_named(out: &mut Writer, name: &[u8], n: u32)
    requires { HasRoom (length name.now + 10) out.old }
    ensures { Wrote (length name.now + 10) (name.now ++ decimal n) out.old out.new }
{
    put_bytes(out, name);
    put_number(out, n);
}

// A signed number of 32 bits, by what the file would write for it: twice the value, or twice what lies below −1, and one.
pub fn put_signed(out: &mut Writer, value: i32)
    requires { HasRoom 11 out.old }
    ensures { Wrote 11 (signed value) out.old out.new }
{
    let folded = numbers::fold_signed(value);
    if folded % 2 == 0 {
        put_number(out, folded / 2);
    } else {
        put_named(out, b"-", folded / 2 + 1);
    }
}

// A number of 63 bits, or the one after the last of them.
fn put_long(out: &mut Writer, n: u64)
    requires n_bound { n ≤ 9223372036854775808 }
    requires has_room { HasRoom 19 out.old }
    ensures { Wrote 19 (decimal n) out.old out.new }
{
    let mut digits = [0u8; 20];
    let k = io::decimal(n, &mut digits);
    put_bytes(out, &digits[..k]);
}

// A signed number of 64 bits. −1 − value fits where −value does not, at the lowest value.
pub fn put_value(out: &mut Writer, value: i64)
    requires { HasRoom 20 out.old }
    ensures { Wrote 20 (signed value) out.old out.new }
{
    if value < 0 {
        put_bytes(out, b"-");
        put_long(out, (-1 - value) as u64 + 1);
    } else {
        put_long(out, value as u64);
    }
}

// The number at `j`; 0 past the end.
pub fn number_at(numbers: &[i32], j: usize) -> i32
    ensures { result ≡ get_or numbers.now j (pos 0) }
{
    numbers.get(j).copied().unwrap_or(0)
}

// The number at `j` after a space.
pub fn put_number_at(out: &mut Writer, numbers: &[i32], j: usize)
    requires { HasRoom 12 out.old }
    ensures { Wrote 12 (number_text numbers.now j) out.old out.new }
{
    put_bytes(out, b" ");
    put_signed(out, number_at(numbers, j));
}
