// The columns of a stored guard file (request #111), read into cells: number `i` of column `j` at place 24 × j + i. `specs/Columns.antt` of
// `columnfile` says what is read and asked.
#![tactic(auto)]

ghost use Rattle.std.specs.Prelude.{◌≡◌, [], ◌<◌, ◌≤◌, drop, length};
ghost use Rattle.guard.specs.File.{kind, name};
ghost use Rattle.guard.specs.Number.{unsigned, unsigned_of, value_width};
ghost use Rattle.guard.specs.Types.{fields_of, variants_of};
ghost use Rattle.tables.specs.Layout.{TypesInRange, types_of};
ghost use Rattle.numbers.specs.Reader.{Reads};
ghost use Rattle.columnfile.specs.Columns.{cell, second, third, width};
ghost use Rattle.columnreader.specs.Cells.{Holds, ReadsColumn, ReadsColumns};

use guard::Question;
use numbers::{Read, read_asked, read_number};
use tables::TypeTable;

// How many variants a type has; 0 where there is no such type.
fn variant_count(table: TypeTable, t: u64) -> u32
    requires { TypesInRange table }
    ensures { result ≡ length (variants_of (types_of table) t) }
{
    if table.many as u64 <= t {
        return 0;
    }
    table.variants[t as usize] as u32
}

// How many fields a variant has; 0 where there is no such variant.
fn field_count(table: TypeTable, t: u64, v: u64) -> u64
    requires { TypesInRange table }
    ensures { result ≡ length (fields_of (types_of table) t v) }
{
    if variant_count(table, t) as u64 <= v {
        return 0;
    }
    let place = table.first[t as usize] as usize + v as usize;
    table.arities[place] as u64
}

// How many numbers a row has.
pub fn width_of(table: TypeTable, kind: u64, second: u64, third: u64) -> u64
    requires { TypesInRange table }
    ensures { result ≡ width (types_of table) kind second third }
{
    if kind == 0 {
        return 2;
    }
    if kind == 1 {
        return 3;
    }
    if kind == 2 {
        return 3 + field_count(table, second, third);
    }
    4
}

// A number that is asked no more than 2 and 3.
fn read_plain(bytes: &[u8], at: usize) -> Result<Read<u64>, Question>
    ensures { Reads (unsigned (drop at bytes.now)) bytes.now result }
{
    let n = read_number(bytes, at)?;
    Ok(Read {
        value: n.value as u64,
        at: n.at,
    })
}

// A name below this limit.
fn read_name(bytes: &[u8], at: usize, limit: u32) -> Result<Read<u64>, Question>
    ensures { Reads (name limit (drop at bytes.now)) bytes.now result }
{
    let n = read_asked(bytes, at, limit, Question::UnknownName)?;
    Ok(Read {
        value: n.value as u64,
        at: n.at,
    })
}

// The second number of a row of this kind. A built row's is a variant type.
fn read_second(bytes: &[u8], at: usize, table: TypeTable, kind: u64) -> Result<Read<u64>, Question>
    requires { TypesInRange table }
    ensures { Reads (second (types_of table) kind (drop at bytes.now)) bytes.now result }
{
    if kind != 2 {
        return read_plain(bytes, at);
    }
    let t = read_name(bytes, at, table.many as u32)?;
    if variant_count(table, t.value) == 0 {
        return Err(Question::TypeMismatch);
    }
    Ok(t)
}

// A constant's value, as it is written.
fn read_folded(bytes: &[u8], at: usize) -> Result<Read<u64>, Question>
    ensures { Reads (unsigned_of value_width (drop at bytes.now)) bytes.now result }
{
    let x = values::read_value(bytes, at)?;
    Ok(Read {
        value: values::fold(x.value),
        at: x.at,
    })
}

// The third number of a row of this kind, with this second number.
fn read_third(
    bytes: &[u8],
    at: usize,
    table: TypeTable,
    kind: u64,
    second: u64,
) -> Result<Read<u64>, Question>
    requires types_in_range { TypesInRange table }
    requires at_in_bounds { at ≤ length bytes.now }
    ensures { Reads (third (types_of table) kind second (drop at bytes.now)) bytes.now result }
{
    if kind == 0 {
        return Ok(Read { value: 0, at });
    }
    if kind == 1 {
        return read_folded(bytes, at);
    }
    if kind == 2 {
        return read_name(bytes, at, variant_count(table, second));
    }
    read_plain(bytes, at)
}

// Number `j` of a row, from the fourth on, if it has one.
fn read_later(
    bytes: &[u8],
    at: usize,
    table: TypeTable,
    j: u64,
    kind: u64,
    second: u64,
    third: u64,
) -> Result<Read<u64>, Question>
    requires types_in_range { TypesInRange table }
    requires at_in_bounds { at ≤ length bytes.now }
    requires le_j { 3 ≤ j }
    ensures { Reads (cell (types_of table) j kind second third (drop at bytes.now)) bytes.now result }
{
    if width_of(table, kind, second, third) <= j {
        return Ok(Read { value: 0, at });
    }
    read_plain(bytes, at)
}

// A kind.
fn read_kind(bytes: &[u8], at: usize) -> Result<Read<u64>, Question>
    ensures { Reads (kind (drop at bytes.now)) bytes.now result }
{
    let n = read_asked(bytes, at, 4, Question::UnknownKind)?;
    Ok(Read {
        value: n.value as u64,
        at: n.at,
    })
}

// Number `j` of row `i`.
fn read_cell(
    bytes: &[u8],
    at: usize,
    table: TypeTable,
    j: u64,
    kind: u64,
    second: u64,
    third: u64,
) -> Result<Read<u64>, Question>
    requires types_in_range { TypesInRange table }
    requires at_in_bounds { at ≤ length bytes.now }
    ensures { Reads (cell (types_of table) j kind second third (drop at bytes.now)) bytes.now result }
{
    if j == 0 {
        return read_kind(bytes, at);
    }
    if j == 1 {
        return read_second(bytes, at, table, kind);
    }
    if j == 2 {
        return read_third(bytes, at, table, kind, second);
    }
    read_later(bytes, at, table, j, kind, second, third)
}

// Column `j` of `n` rows, after those before it: where reading goes on.
fn read_column(
    bytes: &[u8],
    at: usize,
    table: TypeTable,
    j: usize,
    n: usize,
    cells: &mut [u64; 144],
) -> Result<usize, Question>
    requires types_in_range { TypesInRange table }
    requires at_in_bounds { (at ≤ length bytes.now) × (n ≤ 24) × (j < 6) }
    ensures { ReadsColumn bytes.now at (types_of table) j n cells.old result cells.new }
{
    let mut next = at;
    for i in 0..n {
        let kind = cells[i];
        let second = cells[24 + i];
        let third = cells[48 + i];
        let x = read_cell(bytes, next, table, j as u64, kind, second, third)?;
        cells[24 * j + i] = x.value;
        next = x.at;
    }
    Ok(next)
}

// All six columns of `n` rows into cells that are 0: where reading goes on.
pub fn read_columns(
    bytes: &[u8],
    at: usize,
    table: TypeTable,
    n: usize,
    cells: &mut [u64; 144],
) -> Result<usize, Question>
    requires types_in_range { TypesInRange table }
    requires at_in_bounds { (at ≤ length bytes.now) × (n ≤ 24) }
    requires holds { Holds cells.old [] }
    ensures { ReadsColumns bytes.now at (types_of table) n result cells.new }
{
    let mut next = at;
    for j in 0..6 {
        next = read_column(bytes, next, table, j, n, cells)?;
    }
    Ok(next)
}
