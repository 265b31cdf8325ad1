// The term rows of a guard file, read into their table. Document 01: a row has a kind, and then what its kind asks for. A row
// names only rows before it.
#![tactic(auto)]

ghost use Rattle.std.specs.Prelude.{◌≡◌, ◌<◌, ◌≤◌, [], drop, length};
ghost use Rattle.guard.specs.File.{rows};
ghost use Rattle.numbers.specs.Reader.{Reads};
ghost use Rattle.tables.specs.Layout.{TypesInRange, row_table, types_of};
ghost use Rattle.rowreader.specs.RowReader.{counted_rows, stored, table_with};

use guard::Question;
use numbers::{Read, read_asked};
use rowparts::Row;
use tables::{RowTable, TypeTable};

// The table with one row more.
fn store(rows: RowTable, kind: u8, row: Row) -> RowTable
    requires { rows.many < 24 }
    ensures { result ≡ stored rows kind row }
{
    let mut out = rows;
    let i = out.many;
    out.kinds[i] = kind;
    out.types[i] = row.sort;
    out.variants[i] = row.variant;
    out.parts[3 * i] = row.parts[0];
    out.parts[3 * i + 1] = row.parts[1];
    out.parts[3 * i + 2] = row.parts[2];
    out.values[i] = row.value;
    out.many = i + 1;
    out
}

fn no_rows() -> RowTable
    ensures { result ≡ row_table [] [] }
{
    RowTable {
        many: 0,
        kinds: [0u8; 24],
        types: [0u8; 24],
        variants: [0u8; 24],
        parts: [0u8; 72],
        values: [0i64; 24],
    }
}

// So many rows.
fn read_n_rows(
    bytes: &[u8],
    at: usize,
    n: usize,
    table: TypeTable,
) -> Result<Read<RowTable>, Question>
    requires in_range { TypesInRange table }
    requires few { n ≤ 24 }
    requires within { at ≤ length bytes.now }
    ensures { Reads (table_with (types_of table) (rows n (types_of table) []) (drop at bytes.now)) bytes.now result }
{
    let mut rows = no_rows();
    let mut next = at;
    for i in 0..n {
        let k = read_asked(bytes, next, 4, Question::UnknownKind)?;
        let r = rowkinds::read_row(bytes, k.at, k.value, i, &rows.types, table)?;
        rows = store(rows, k.value as u8, r.value);
        next = r.at;
    }
    Ok(Read {
        value: rows,
        at: next,
    })
}

// The rows, after their number, which is at most `limit`.
pub fn read_rows(
    bytes: &[u8],
    at: usize,
    limit: u32,
    table: TypeTable,
) -> Result<Read<RowTable>, Question>
    requires { TypesInRange table × (limit ≤ 24) }
    ensures { Reads (table_with (types_of table) (counted_rows limit (types_of table)) (drop at bytes.now)) bytes.now result }
{
    let n = read_asked(bytes, at, limit + 1, Question::TooMany)?;
    read_n_rows(bytes, n.at, n.value as usize, table)
}
