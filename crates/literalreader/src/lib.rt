// Reads the literals of a guard file into their table, and asks whether the file has ended: questions 2 to 7 of them, and 10.
#![tactic(auto)]

ghost use Rattle.std.specs.Prelude.{◌≤◌, drop};
ghost use Rattle.numbers.specs.Reader.{Reads, ReadsAll};
ghost use Rattle.literalkinds.specs.OneLiteral.{literal_by};
ghost use Rattle.literalreader.specs.LiteralReader.{EachBelow, in_table, lines_by, literals_by};

use guard::Question;
use numbers::{Read, read_asked};
use tables::LiteralTable;

// The count of lines, and the lines.
pub fn read_lines(
    bytes: &[u8],
    at: usize,
    limit: u32,
    counts: &[u8; 6],
    rows: usize,
    types: &[u8; 24],
) -> Result<Read<LiteralTable>, Question>
    requires limit_bound { limit ≤ 64 }
    requires rows_bound { rows ≤ 24 }
    requires each_below { EachBelow 17 counts.now }
    requires each_below_2 { EachBelow 6 types.now }
    ensures { Reads (in_table (lines_by limit (literal_by counts.now rows types.now)) (drop at bytes.now)) bytes.now result }
{
    let n = read_asked(bytes, at, limit + 1, Question::TooMany)?;
    let many = n.value as usize;
    let mut kinds = [0u8; 64];
    let mut terms = [0u8; 64];
    let mut others = [0u8; 64];
    let mut cursor = n.at;
    for i in 0..many {
        let l = literalkinds::read_literal(bytes, cursor, counts, rows, types)?;
        let literal = l.value;
        kinds[i] = literal.kind;
        terms[i] = literal.term;
        others[i] = literal.other;
        cursor = l.at;
    }
    Ok(Read {
        value: LiteralTable {
            many,
            kinds,
            terms,
            others,
        },
        at: cursor,
    })
}

// The same, and the end of the file.
pub fn read_literals(
    bytes: &[u8],
    at: usize,
    limit: u32,
    counts: &[u8; 6],
    rows: usize,
    types: &[u8; 24],
) -> Result<LiteralTable, Question>
    requires limit_bound { limit ≤ 64 }
    requires rows_bound { rows ≤ 24 }
    requires each_below { EachBelow 17 counts.now }
    requires each_below_2 { EachBelow 6 types.now }
    ensures { ReadsAll (in_table (literals_by limit (literal_by counts.now rows types.now)) (drop at bytes.now)) result }
{
    let l = read_lines(bytes, at, limit, counts, rows, types)?;
    if l.at < bytes.len() {
        return Err(Question::TrailingBytes);
    }
    Ok(l.value)
}
