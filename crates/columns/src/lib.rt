// Entries of columns: a number read from anywhere in a column, choices, masks of variants and numbers of types.
// `specs/Entries.antt` says what each is.
#![tactic(auto)]

ghost use Rattle.std.specs.Prelude.{cond, ◌≡◌, ◌-◌, ◌<◌, get_or};
ghost use Rattle.columns.specs.Entries.{bit_of, ones_of, plus_one, plus_one_if};

// The number at `i`; 0 past the end.
pub fn at(column: &[u8], i: u16) -> u8
    ensures { result ≡ get_or column.now i 0 }
{
    column.get(i as usize).copied().unwrap_or(0)
}

pub fn byte(column: &[u8], i: u16) -> u16
    ensures value { result ≡ get_or column.now i 0 }
    ensures upper_bound { result < 256 }
{
    at(column, i) as u16
}

// Tests choose between values, so that the code of an entry has no branches and its proof no cases.
pub fn choose(test: bool, x: u16, y: u16) -> u16
    ensures { result ≡ cond test x y }
{
    if test { x } else { y }
}

pub fn choose_byte(test: bool, x: u8, y: u8) -> u8
    ensures { result ≡ cond test x y }
{
    if test { x } else { y }
}

// The difference; 0 where there is none.
pub fn minus(x: u16, y: u16) -> u16
    ensures { result ≡ x - y }
{
    x.saturating_sub(y)
}

// The mask of one variant.
#[tactic(auto, using(crate::proofs::EntryLaws::shifted_one), unfolding(crate::specs::Entries::bit_of))]
pub fn bit_of(v: u16) -> u16
    ensures { result ≡ bit_of v }
{
    if v < 16 {
        return 1u16 << v;
    }
    0
}

// The mask of the first `n` variants.
#[tactic(auto, using(crate::proofs::EntryLaws::ones), unfolding(crate::specs::Entries::ones_of))]
pub fn ones_of(n: u16) -> u16
    ensures { result ≡ ones_of n }
{
    if n < 16 {
        return (1u16 << n) - 1;
    }
    65535
}

// The number of a type, plus one.
#[tactic(auto, unfolding(crate::specs::Entries::plus_one))]
fn plus_one(t: u16) -> u8
    ensures { result ≡ plus_one t }
{
    if t < 6 {
        return t as u8 + 1;
    }
    0
}

#[tactic(auto, unfolding(crate::specs::Entries::plus_one_if))]
pub fn plus_one_if(test: bool, t: u16) -> u8
    ensures { result ≡ plus_one_if test t }
{
    if test {
        return plus_one(t);
    }
    0
}
