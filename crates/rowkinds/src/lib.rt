// One row of a guard file, by its kind. Document 01: a variable's type; a constant's type and value; a built row's type,
// variant and parts; or the term, variant and position of a field read.
#![tactic(auto)]

ghost use Rattle.std.specs.Prelude.{◌<◌, drop, take};
ghost use Rattle.std.specs.Result.{IfOk};
ghost use Rattle.numbers.specs.Reader.{Reads};
ghost use Rattle.tables.specs.Layout.{TypesInRange, types_of};
ghost use Rattle.rowparts.specs.ByTypes.{variable_row, constant_row, built_row, field_row, row_by, variant_term_by};
ghost use Rattle.rowparts.specs.RowParts.{Before, row_with};

use guard::Question;
use numbers::{Read, read_asked};
use rowparts::Row;
use tables::TypeTable;

fn read_variable(bytes: &[u8], at: usize, table: TypeTable) -> Result<Read<Row>, Question>
    requires { TypesInRange table }
    ensures { Reads (row_with (types_of table) (variable_row (types_of table)) (drop at bytes.now)) bytes.now result }
{
    let t = read_asked(bytes, at, table.many as u32, Question::UnknownName)?;
    Ok(Read {
        value: Row {
            sort: t.value as u8,
            variant: 0,
            parts: [0u8; 3],
            value: 0,
        },
        at: t.at,
    })
}

fn read_constant(bytes: &[u8], at: usize, table: TypeTable) -> Result<Read<Row>, Question>
    requires { TypesInRange table }
    ensures { Reads (row_with (types_of table) (constant_row (types_of table)) (drop at bytes.now)) bytes.now result }
{
    let t = read_asked(bytes, at, table.many as u32, Question::UnknownName)?;
    let variants = rowparts::variants_of(table, t.value as usize);
    if variants != 0 {
        return Err(Question::TypeMismatch);
    }
    let n = values::read_value(bytes, t.at)?;
    Ok(Read {
        value: Row {
            sort: t.value as u8,
            variant: 0,
            parts: [0u8; 3],
            value: n.value,
        },
        at: n.at,
    })
}

fn read_built(
    bytes: &[u8],
    at: usize,
    rows: usize,
    types: &[u8; 24],
    table: TypeTable,
) -> Result<Read<Row>, Question>
    requires { TypesInRange table × Before table rows types.now }
    ensures { Reads (row_with (types_of table) (built_row (types_of table) (take rows types.now)) (drop at bytes.now)) bytes.now result }
{
    let t = read_asked(bytes, at, table.many as u32, Question::UnknownName)?;
    let variants = rowparts::variants_of(table, t.value as usize);
    if variants == 0 {
        return Err(Question::TypeMismatch);
    }
    rowparts::built_of(bytes, t.at, rows, types, table, t.value as usize)
}

// A term of variant type.
fn read_variant_term(
    bytes: &[u8],
    at: usize,
    rows: usize,
    types: &[u8; 24],
    table: TypeTable,
) -> Result<Read<u32>, Question>
    requires { TypesInRange table × Before table rows types.now }
    ensures term { Reads (variant_term_by (types_of table) (take rows types.now) (drop at bytes.now)) bytes.now result }
    ensures earlier { IfOk result (λ r. r.value < rows) }
{
    let a = read_asked(bytes, at, rows as u32, Question::UnknownName)?;
    let variants = rowparts::variants_of(table, types[a.value as usize] as usize);
    if variants == 0 {
        return Err(Question::TypeMismatch);
    }
    Ok(a)
}

fn read_field(
    bytes: &[u8],
    at: usize,
    rows: usize,
    types: &[u8; 24],
    table: TypeTable,
) -> Result<Read<Row>, Question>
    requires { TypesInRange table × Before table rows types.now }
    ensures { Reads (row_with (types_of table) (field_row (types_of table) (take rows types.now)) (drop at bytes.now)) bytes.now result }
{
    let a = read_variant_term(bytes, at, rows, types, table)?;
    let t = types[a.value as usize] as usize;
    rowparts::field_of(bytes, a.at, table, t, a.value as u8)
}

// A row of the kind given.
pub fn read_row(
    bytes: &[u8],
    at: usize,
    kind: u32,
    rows: usize,
    types: &[u8; 24],
    table: TypeTable,
) -> Result<Read<Row>, Question>
    requires { TypesInRange table × Before table rows types.now }
    ensures { Reads (row_with (types_of table) (row_by (types_of table) (take rows types.now) kind) (drop at bytes.now)) bytes.now result }
{
    if kind == 0 {
        return read_variable(bytes, at, table);
    }
    if kind == 1 {
        return read_constant(bytes, at, table);
    }
    if kind == 2 {
        return read_built(bytes, at, rows, types, table);
    }
    read_field(bytes, at, rows, types, table)
}
