// A guard file with its term rows by column, from the tables of its guard into a lent buffer (request #111). `specs/Columns.antt` of
// `columnfile` says what is stored.
#![tactic(auto)]

ghost use Rattle.std.specs.Prelude.{◌≤◌, Some};
ghost use Rattle.rowterms.specs.Rows.{BuiltRow, SomeRows};
ghost use Rattle.columnwriter.specs.Entries.{HasRow, IsEntry, PutsColumn, PutsColumns, PutsEntry, PutsLines, PutsRows, PutsStored, SomeGuard};

use bytebuffer::Writer;
use reader::Tables;
use tables::{RowTable, TypeTable};

// The second number of row `r`: the term that a field read reads, or a type.
#[tactic(auto, using(crate::proofs::EntryLaws::second_laws))]
fn second_of(types: &TypeTable, rows: &RowTable, r: usize) -> u64
    requires { HasRow types.now rows.now r }
    ensures { IsEntry types.now rows.now r 1 (Some result) }
{
    if rows.kinds[r] == 3 {
        return rows.parts[3 * r] as u64;
    }
    rows.types[r] as u64
}

// The third: a constant's value, or a variant. A variable has none.
#[tactic(auto, using(crate::proofs::EntryLaws::third_laws))]
fn third_of(types: &TypeTable, rows: &RowTable, r: usize) -> Option<u64>
    requires { HasRow types.now rows.now r }
    ensures { IsEntry types.now rows.now r 2 result }
{
    match rows.kinds[r] {
        0 => None,
        1 => Some(values::fold(rows.values[r])),
        _ => Some(rows.variants[r] as u64),
    }
}

// Number `j` of a built row, a part: from the fourth number on.
fn part_of(types: &TypeTable, rows: &RowTable, r: usize, j: usize) -> Option<u64>
    requires built_row { BuiltRow types.now rows.now r }
    requires le_j { 3 ≤ j }
    ensures { IsEntry types.now rows.now r j result }
{
    let part = j - 3;
    if rowterms::part_count(types, rows, r) <= part {
        return None;
    }
    Some(rows.parts[3 * r + part] as u64)
}

// Number `j`, from the fourth on: a part, or the position of a field read.
#[tactic(auto, using(crate::proofs::EntryLaws::later_laws))]
fn later_of(types: &TypeTable, rows: &RowTable, r: usize, j: usize) -> Option<u64>
    requires has_row { HasRow types.now rows.now r }
    requires le_j { 3 ≤ j }
    ensures { IsEntry types.now rows.now r j result }
{
    let kind = rows.kinds[r];
    if kind == 2 {
        return part_of(types, rows, r, j);
    }
    if kind == 3 && j == 3 {
        return Some(rows.parts[3 * r + 1] as u64);
    }
    None
}

// Number `j` of row `r`, counted from 0, if it has one.
#[tactic(auto, using(crate::proofs::EntryLaws::kind_laws))]
fn entry_of(types: &TypeTable, rows: &RowTable, r: usize, j: usize) -> Option<u64>
    requires { HasRow types.now rows.now r }
    ensures { IsEntry types.now rows.now r j result }
{
    match j {
        0 => Some(rows.kinds[r] as u64),
        1 => Some(second_of(types, rows, r)),
        2 => third_of(types, rows, r),
        _ => later_of(types, rows, r, j),
    }
}

// The bytes of number `j` of row `r`, if it has one.
#[tactic(auto, using(crate::proofs::ColumnLaws::entry_laws))]
fn put_entry(types: &TypeTable, rows: &RowTable, r: usize, j: usize, out: &mut Writer) -> Option<()>
    requires { HasRow types.now rows.now r }
    ensures { PutsEntry types.now rows.now r j out.old result out.new }
{
    match entry_of(types, rows, r, j) {
        Some(n) => numberwriter::put_number(out, n),
        None => Some(()),
    }
}

// Column `j`: number `j` of each row that has one.
#[tactic(auto, using(crate::proofs::ColumnLaws::column_laws))]
fn put_column(types: &TypeTable, rows: &RowTable, j: usize, out: &mut Writer) -> Option<()>
    requires { SomeRows types.now rows.now }
    ensures { PutsColumn types.now rows.now j out.old result out.new }
{
    for r in 0..rows.many {
        put_entry(types, rows, r, j, out)?;
    }
    Some(())
}

// All six columns.
#[tactic(auto, using(crate::proofs::ColumnLaws::columns_laws))]
fn put_columns(types: &TypeTable, rows: &RowTable, out: &mut Writer) -> Option<()>
    requires { SomeRows types.now rows.now }
    ensures { PutsColumns types.now rows.now out.old result out.new }
{
    for j in 0..6 {
        put_column(types, rows, j, out)?;
    }
    Some(())
}

// N, and the columns.
#[tactic(auto, using(crate::proofs::PutLaws::rows_laws))]
fn put_rows(t: &Tables, out: &mut Writer) -> Option<()>
    requires { SomeGuard t.now }
    ensures { PutsRows t.now out.old result out.new }
{
    out.put(&[t.rows.many as u8])?;
    put_columns(&t.types, &t.rows, out)
}

// L, and the lines.
#[tactic(auto, using(crate::proofs::PutLaws::lines_laws))]
fn put_lines(t: &Tables, out: &mut Writer) -> Option<()>
    requires { SomeGuard t.now }
    ensures { PutsLines t.now out.old result out.new }
{
    out.put(&[t.literals.many as u8])?;
    literalwriter::put_literals(&t.literals, &mergewriter::own_names(), out)
}

// The stored file, from the start of the buffer on.
pub fn put_stored(t: &Tables, out: &mut [u8]) -> Option<usize>
    requires { SomeGuard t.now }
    ensures { PutsStored t.now out.old result out.new }
{
    let mut writer = Writer::new(out);
    typewriter::put_types(&t.types, &mut writer)?;
    put_rows(t, &mut writer)?;
    put_lines(t, &mut writer)?;
    Some(writer.at)
}
