// Reads the file of a procedure into tables (document 02, #113): types and term rows once, then the lines of each branch. Or says which
// question gets the first no: 2 to 9 of the head, 19 of the number of branches, 2 to 7 of each branch, 10 after the last.
#![tactic(auto)]

ghost use Rattle.std.specs.Prelude.{◌≡◌, [], ◌≤◌, drop};
ghost use Rattle.guard.specs.Limits.{base};
ghost use Rattle.tables.specs.Layout.{literal_table};
ghost use Rattle.numbers.specs.Reader.{Reads, ReadsAll};
ghost use Rattle.literalkinds.specs.OneLiteral.{literal_by};
ghost use Rattle.literalreader.specs.LiteralReader.{EachBelow, lines_by};
ghost use Rattle.branches.specs.Procedure.{branch_count, procedure};
ghost use Rattle.branchreader.specs.BranchReader.{branches_by, in_branches, in_tables};

use guard::Question;
use headreader::read_head;
use literalreader::read_lines;
use numbers::{Read, read_asked};
use tables::{LiteralTable, RowTable, TypeTable};

// The branches, and the table of the lines of each.
#[derive(Clone, Copy)]
pub struct Branches {
    pub many: usize,
    pub lines: [LiteralTable; 8],
}

// The tables of a procedure.
#[derive(Clone, Copy)]
pub struct Procedure {
    pub types: TypeTable,
    pub rows: RowTable,
    // the branches, and the lines of each
    pub many: usize,
    pub lines: [LiteralTable; 8],
}

// The table of no lines.
pub fn no_lines() -> LiteralTable
    ensures { result ≡ literal_table [] }
{
    let none = [0u8; 64];
    LiteralTable {
        many: 0,
        kinds: none,
        terms: none,
        others: none,
    }
}

// The number of branches, 1 to 8.
fn read_count(bytes: &[u8], at: usize) -> Result<Read<u32>, Question>
    ensures { Reads (branch_count (drop at bytes.now)) bytes.now result }
{
    let n = read_asked(bytes, at, 9, Question::BranchCount)?;
    if n.value == 0 {
        return Err(Question::BranchCount);
    }
    Ok(n)
}

// The branches, each with its count of lines, and the end of the file.
fn read_branches(
    bytes: &[u8],
    at: usize,
    counts: &[u8; 6],
    rows: usize,
    types: &[u8; 24],
) -> Result<Branches, Question>
    requires rows_bound { rows ≤ 24 }
    requires each_below { EachBelow 17 counts.now }
    requires each_below_2 { EachBelow 6 types.now }
    ensures { ReadsAll (in_branches (branches_by (lines_by base.lines (literal_by counts.now rows types.now))) (drop at bytes.now)) result }
{
    let n = read_count(bytes, at)?;
    let many = n.value as usize;
    let none = no_lines();
    let mut lines = [none; 8];
    let mut cursor = n.at;
    for i in 0..many {
        let l = read_lines(bytes, cursor, 32, counts, rows, types)?;
        lines[i] = l.value;
        cursor = l.at;
    }
    if cursor < bytes.len() {
        return Err(Question::TrailingBytes);
    }
    Ok(Branches { many, lines })
}

// The tables of the file of a procedure.
pub fn read_procedure(bytes: &[u8]) -> Result<Procedure, Question>
    ensures { ReadsAll (in_tables (procedure base) bytes.now) result }
{
    let h = read_head(bytes, 6, 24)?;
    let head = h.value;
    let types = head.types;
    let rows = head.rows;
    let counts = types.variants;
    let sorts = rows.types;
    let b = read_branches(bytes, h.at, &counts, rows.many, &sorts)?;
    let lines = b.lines;
    Ok(Procedure {
        types,
        rows,
        many: b.many,
        lines,
    })
}
