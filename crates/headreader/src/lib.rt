// The types and the term rows of a file, read into tables: what stands before the lines of a guard. Questions 2 to 9 of them.
#![tactic(auto)]

ghost use Rattle.std.specs.Prelude.{◌≤◌};
ghost use Rattle.numbers.specs.Reader.{Reads};
ghost use Rattle.headreader.specs.Head.{head_part, in_tables};

use datatypes::type_facts;
use guard::Question;
use numbers::Read;
use rowreader::read_rows;
use tables::{RowTable, TypeTable};
use typereader::read_types;

#[derive(Clone, Copy)]
pub struct HeadTables {
    pub types: TypeTable,
    // the variant of each type's default
    pub defaults: [u8; 6],
    pub rows: RowTable,
}

// The tables of a file's types and rows, at most so many of each.
pub fn read_head(bytes: &[u8], types: u32, terms: u32) -> Result<Read<HeadTables>, Question>
    requires { (types ≤ 6) × (terms ≤ 24) }
    ensures { Reads (in_tables (head_part types terms) bytes.now) bytes.now result }
{
    let t = read_types(bytes, types)?;
    let table = t.value;
    let defaults = type_facts(table)?;
    let n = read_rows(bytes, t.at, terms, table)?;
    Ok(Read {
        value: HeadTables {
            types: table,
            defaults,
            rows: n.value,
        },
        at: n.at,
    })
}
