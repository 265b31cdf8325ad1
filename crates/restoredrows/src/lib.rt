// Term rows from the cells of a stored guard file into a lent buffer, in row order (request #111). `specs/Columns.antt` of `columnfile` says
// what a restored row is.
#![tactic(auto)]

ghost use Rattle.std.specs.Prelude.{◌<◌, ◌≤◌};
ghost use Rattle.tables.specs.Layout.{TypesInRange, types_of};
ghost use Rattle.bytebuffer.specs.Appends.{Appends};
ghost use Rattle.restoredrows.specs.Restored.{PutsRow, PutsRows, SomeColumns};

use bytebuffer::Writer;
use tables::TypeTable;

// The numbers of row `i`.
#[tactic(auto, using(crate::proofs::RowLaws::row_laws))]
fn put_row(types: &TypeTable, cells: &[u64; 144], i: usize, out: &mut Writer) -> Option<()>
    requires types_in_range { TypesInRange types.now }
    requires some_columns { SomeColumns cells.now }
    requires i_bound { i < 24 }
    ensures { PutsRow (types_of types.now) cells.now i out.old result out.new }
{
    let kind = cells[i];
    let second = cells[24 + i];
    let third = cells[48 + i];
    let width = columnreader::width_of(*types, kind, second, third) as usize;
    for j in 0..width {
        numberwriter::put_number(out, cells[24 * j + i])?;
    }
    Some(())
}

// N, and so many rows, from the start of the buffer on.
#[tactic(auto, using(crate::proofs::RowLaws::rows_laws))]
pub fn put_rows(types: &TypeTable, cells: &[u64; 144], n: usize, out: &mut [u8]) -> Option<usize>
    requires types_in_range { TypesInRange types.now }
    requires some_columns { SomeColumns cells.now }
    requires n_bound { n ≤ 24 }
    ensures { PutsRows (types_of types.now) cells.now n out.old result out.new }
{
    let mut writer = Writer::new(out);
    writer.put(&[n as u8])?;
    for i in 0..n {
        put_row(types, cells, i, &mut writer)?;
    }
    Some(writer.at)
}

// Bytes as they stand. They go one by one: a copy of so many at once from one lent buffer to another would ask the caller's program for
// `memmove`.
#[tactic(auto, using(crate::proofs::ByteLaws::byte_laws))]
pub fn put_bytes(bytes: &[u8], out: &mut Writer) -> Option<()>
    ensures { Appends bytes.now out.old result out.new }
{
    for i in 0..bytes.len() {
        out.put(&[bytes[i]])?;
    }
    Some(())
}
