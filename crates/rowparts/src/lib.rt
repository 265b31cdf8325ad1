// A built row or a field read of a guard file, from its variant on. Document 01: a built row's variant and parts; the variant
// and the position of a field read. A row names only rows before it.
#![tactic(auto)]

ghost use Rattle.std.specs.Prelude.{◌≡◌, ◌<◌, ◌≤◌, drop, length, take};
ghost use Rattle.guard.specs.Types.{variants_of};
ghost use Rattle.numbers.specs.Reader.{Reads};
ghost use Rattle.tables.specs.Layout.{TypesInRange, types_of};
ghost use Rattle.rowparts.specs.ByTypes.{built_of, field_of};
ghost use Rattle.rowparts.specs.RowParts.{Before, variant_number, fields_from, padded_parts, row_with};

use guard::Question;
use numbers::{Read, read_asked};
use tables::TypeTable;

// One row: its type, the variant built or read, its parts, and the value of a constant, as in a table of rows.
#[derive(Clone, Copy)]
pub struct Row {
    pub sort: u8,
    pub variant: u8,
    pub parts: [u8; 3],
    pub value: i64,
}

// How many variants a type has.
pub fn variants_of(table: TypeTable, t: usize) -> u32
    requires { TypesInRange table × (t < table.many) }
    ensures { result ≡ length (variants_of (types_of table) t) }
{
    table.variants[t] as u32
}

// The number of a type's variant among the variants of all types.
fn variant_number(table: TypeTable, t: usize, v: usize) -> usize
    requires { TypesInRange table × (t < table.many) × (v < length (variants_of (types_of table) t)) }
    ensures number { result ≡ variant_number table t v }
    ensures in_variants { result < 48 }
{
    table.first[t] as usize + v
}

// The parts of a built row of variant `w`, which has so many fields.
fn read_parts(
    bytes: &[u8],
    at: usize,
    rows: usize,
    types: &[u8; 24],
    sorts: &[u8; 144],
    w: usize,
    arity: usize,
) -> Result<Read<[u8; 3]>, Question>
    requires few { rows ≤ 24 }
    requires long { length types.now ≡ 24 }
    requires in_variants { w < 48 }
    requires in_fields { arity ≤ 3 }
    requires within { at ≤ length bytes.now }
    ensures { Reads (padded_parts (take rows types.now) (fields_from sorts.now w arity 0) (drop at bytes.now)) bytes.now result }
{
    let mut parts = [0u8; 3];
    let mut next = at;
    for j in 0..arity {
        let p = read_asked(bytes, next, rows as u32, Question::UnknownName)?;
        if types[p.value as usize] != sorts[3 * w + j] {
            return Err(Question::TypeMismatch);
        }
        parts[j] = p.value as u8;
        next = p.at;
    }
    Ok(Read {
        value: parts,
        at: next,
    })
}

// A built row of the type `t`, from its variant on.
pub fn built_of(
    bytes: &[u8],
    at: usize,
    rows: usize,
    types: &[u8; 24],
    table: TypeTable,
    t: usize,
) -> Result<Read<Row>, Question>
    requires { TypesInRange table × Before table rows types.now × (t < table.many) }
    ensures { Reads (row_with (types_of table) (built_of (types_of table) (take rows types.now) t) (drop at bytes.now)) bytes.now result }
{
    let v = read_asked(bytes, at, variants_of(table, t), Question::UnknownName)?;
    let w = variant_number(table, t, v.value as usize);
    let arity = table.arities[w] as usize;
    let p = read_parts(bytes, v.at, rows, types, &table.sorts, w, arity)?;
    let parts = p.value;
    Ok(Read {
        value: Row {
            sort: t as u8,
            variant: v.value as u8,
            parts,
            value: 0,
        },
        at: p.at,
    })
}

// A field of the term `term`, which is of the type `t`, from the variant on.
pub fn field_of(
    bytes: &[u8],
    at: usize,
    table: TypeTable,
    t: usize,
    term: u8,
) -> Result<Read<Row>, Question>
    requires { TypesInRange table × (t < table.many) }
    ensures { Reads (row_with (types_of table) (field_of (types_of table) t term) (drop at bytes.now)) bytes.now result }
{
    let v = read_asked(bytes, at, variants_of(table, t), Question::UnknownName)?;
    let w = variant_number(table, t, v.value as usize);
    let arity = table.arities[w] as u32;
    let p = read_asked(bytes, v.at, arity, Question::UnknownName)?;
    let place = 3 * w + p.value as usize;
    Ok(Read {
        value: Row {
            sort: table.sorts[place],
            variant: v.value as u8,
            parts: [term, p.value as u8, 0],
            value: 0,
        },
        at: p.at,
    })
}
