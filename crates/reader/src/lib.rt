// Reads a guard file into tables, or says which of the questions 2 to 10 gets the first no.
#![tactic(auto)]

ghost use Rattle.guard.specs.File.{file};
ghost use Rattle.numbers.specs.Reader.{ReadsAll};
ghost use Rattle.reader.specs.Reader.{in_tables, limits_of};

use guard::Question;
use headreader::read_head;
use literalreader::read_literals;
use siblings::{Siblings, sibling_fields};
use tables::{LiteralTable, RowTable, TypeTable};

// The tables of a guard.
#[derive(Clone, Copy)]
pub struct Tables {
    pub types: TypeTable,
    // the variant of each type's default
    pub defaults: [u8; 6],
    pub rows: RowTable,
    pub literals: LiteralTable,
    // the terms of each read's fields, and the types of its sibling fields
    pub siblings: Siblings,
}

// The tables of the file within these limits, which count as far as the tables have room: 6 types, 24 rows, 64 lines.
pub fn read(bytes: &[u8], types: u32, terms: u32, lines: u32) -> Result<Tables, Question>
    ensures { ReadsAll (in_tables (file (limits_of types terms lines)) bytes.now) result }
{
    let h = read_head(bytes, types.min(6), terms.min(24))?;
    let head = h.value;
    let table = head.types;
    let defaults = head.defaults;
    let rows = head.rows;
    let counts = table.variants;
    let sorts = rows.types;
    let literals = read_literals(bytes, h.at, lines.min(64), &counts, rows.many, &sorts)?;
    let siblings = sibling_fields(table, rows);
    Ok(Tables {
        types: table,
        defaults,
        rows,
        literals,
        siblings,
    })
}
