// Reads one literal of a guard file, by its kind: questions 2, 3 and 5 to 7 of it.
#![tactic(auto)]

ghost use Rattle.std.specs.Prelude.{◌≤◌, drop};
ghost use Rattle.numbers.specs.Reader.{Reads};
ghost use Rattle.literalkinds.specs.OneLiteral.{EachBelow, ReadsLiteral, numbers_by, literal_by, test_by, two_by};

use guard::Question;
use numbers::{Read, read_asked};

// The two numbers of a literal: a term, and a second term or a variant.
#[derive(Clone, Copy)]
pub struct Pair {
    pub term: u8,
    pub other: u8,
}

// A literal as a table has it.
#[derive(Clone, Copy)]
pub struct Literal {
    pub kind: u8,
    pub term: u8,
    pub other: u8,
}

// Two terms of one type. `types` are the types of the rows.
fn read_two_terms(
    bytes: &[u8],
    at: usize,
    rows: usize,
    types: &[u8; 24],
) -> Result<Read<Pair>, Question>
    requires { rows ≤ 24 }
    ensures { Reads (two_by rows types.now (drop at bytes.now)) bytes.now result }
{
    let a = read_asked(bytes, at, rows as u32, Question::UnknownName)?;
    let b = read_asked(bytes, a.at, rows as u32, Question::UnknownName)?;
    if types[a.value as usize] != types[b.value as usize] {
        return Err(Question::TypeMismatch);
    }
    Ok(Read {
        value: Pair {
            term: a.value as u8,
            other: b.value as u8,
        },
        at: b.at,
    })
}

// A term of variant type and a variant of it. `counts` are the numbers of variants of the types.
fn read_tested(
    bytes: &[u8],
    at: usize,
    counts: &[u8; 6],
    rows: usize,
    types: &[u8; 24],
) -> Result<Read<Pair>, Question>
    requires rows_bound { rows ≤ 24 }
    requires each_below { EachBelow 17 counts.now }
    requires each_below_2 { EachBelow 6 types.now }
    ensures { Reads (test_by counts.now rows types.now (drop at bytes.now)) bytes.now result }
{
    let a = read_asked(bytes, at, rows as u32, Question::UnknownName)?;
    let many = counts[types[a.value as usize] as usize];
    if many == 0 {
        return Err(Question::TypeMismatch);
    }
    let b = read_asked(bytes, a.at, many as u32, Question::UnknownName)?;
    Ok(Read {
        value: Pair {
            term: a.value as u8,
            other: b.value as u8,
        },
        at: b.at,
    })
}

// The numbers that follow a kind.
fn read_numbers(
    bytes: &[u8],
    at: usize,
    counts: &[u8; 6],
    rows: usize,
    types: &[u8; 24],
    kind: u32,
) -> Result<Read<Pair>, Question>
    requires rows_bound { rows ≤ 24 }
    requires each_below { EachBelow 17 counts.now }
    requires each_below_2 { EachBelow 6 types.now }
    ensures { Reads (numbers_by counts.now rows types.now kind (drop at bytes.now)) bytes.now result }
{
    if kind < 2 {
        return read_two_terms(bytes, at, rows, types);
    }
    read_tested(bytes, at, counts, rows, types)
}

pub fn read_literal(
    bytes: &[u8],
    at: usize,
    counts: &[u8; 6],
    rows: usize,
    types: &[u8; 24],
) -> Result<Read<Literal>, Question>
    requires rows_bound { rows ≤ 24 }
    requires each_below { EachBelow 17 counts.now }
    requires each_below_2 { EachBelow 6 types.now }
    ensures { ReadsLiteral (literal_by counts.now rows types.now (drop at bytes.now)) bytes.now result }
{
    let k = read_asked(bytes, at, 4, Question::UnknownKind)?;
    let p = read_numbers(bytes, k.at, counts, rows, types, k.value)?;
    Ok(Read {
        value: Literal {
            kind: k.value as u8,
            term: p.value.term,
            other: p.value.other,
        },
        at: p.at,
    })
}
