// What the rows of the second of two guards are called in the merged one. Its variables are taken in order as the first's, as long as both last.
#![tactic(auto)]

ghost use Rattle.std.specs.Prelude.{◌≡◌, ◌&&◌, ◌≤◌, eqb, ltb};
ghost use Rattle.renaming.specs.Names.{NamesOf, NextVariable, TwoRows};

use tables::RowTable;

// The second's rows: their names, 0 behind them; 1 in `skipped` for those that are not written, since they are variables of the first.
// How many rows the merged guard has, and whether all variables taken as one have one type.
#[derive(Clone, Copy)]
pub struct Names {
    pub names: [u8; 24],
    pub skipped: [u8; 24],
    pub rows: usize,
    pub agree: bool,
}

// The lowest variable from row `from` on, or `many`.
#[tactic(auto, using(crate::proofs::Variables::variables_on))]
fn next_variable(kinds: &[u8; 24], many: usize, from: usize) -> usize
    requires many_bound { many ≤ 24 }
    requires from_le_many { from ≤ many }
    ensures { NextVariable kinds.now many from result }
{
    for x in from..many {
        if kinds[x] == 0 {
            return x;
        }
    }
    many
}

// Whether a row of this kind is taken as row `x` of `many`.
fn is_taken(kind: u8, x: usize, many: usize) -> bool
    ensures { result ≡ (ltb x many && eqb kind 0) }
{
    x < many && kind == 0
}

// Whether variables still agree after two more, of these types.
fn agree_too(agree: bool, a: u8, b: u8) -> bool
    ensures { result ≡ (agree && eqb a b) }
{
    agree && a == b
}

// `x` is the first's next variable, `next` the number of the next row that is written.
pub fn names_of(first: RowTable, second: RowTable) -> Names
    requires { TwoRows first second }
    ensures { NamesOf first second result }
{
    let many = first.many;
    let mut names = [0u8; 24];
    let mut skipped = [0u8; 24];
    let mut next = many;
    let mut agree = true;
    let mut x = next_variable(&first.kinds, many, 0);
    for i in 0..second.many {
        if is_taken(second.kinds[i], x, many) {
            names[i] = x as u8;
            skipped[i] = 1;
            agree = agree_too(agree, first.types[x], second.types[i]);
            x = next_variable(&first.kinds, many, x + 1);
        } else {
            names[i] = next as u8;
            next += 1;
        }
    }
    Names {
        names,
        skipped,
        rows: next,
        agree,
    }
}
