// Writes term rows of a guard file from tables by a writer, with the terms that they name renumbered.
#![tactic(auto)]

ghost use Rattle.std.specs.Prelude.{[], ◌<◌};
ghost use Rattle.guard.specs.Guard.{Row};
ghost use Rattle.bytebuffer.specs.Appends.{Appends};
ghost use Rattle.rowterms.specs.Rows.{PutsRow, SomeRows, row_bytes};
ghost use Rattle.rowwriter.specs.Kept.{PutsRows};

use bytebuffer::Writer;
use tables::{RowTable, TypeTable};

// A constant of number type `t`.
fn put_constant(t: u8, x: i64, out: &mut Writer) -> Option<()>
    requires { t < 128 }
    ensures { Appends (row_bytes [] (Row.constant t x)) out.old result out.new }
{
    out.put(&[1, t])?;
    numberwriter::put_number(out, values::fold(x))
}

// Row `r`, by its kind.
fn put_row(
    types: &TypeTable,
    rows: &RowTable,
    names: &[u8; 24],
    r: usize,
    out: &mut Writer,
) -> Option<()>
    requires some_rows { SomeRows types.now rows.now }
    requires r_lt_many { r < rows.now.many }
    ensures { PutsRow types.now rows.now names.now r out.old result out.new }
{
    let t = rows.types[r];
    match rows.kinds[r] {
        0 => out.put(&[0, t]),
        1 => put_constant(t, rows.values[r], out),
        2 => rowterms::put_built(types, rows, names, r, out),
        _ => {
            let a = rows.parts[3 * r];
            let p = rows.parts[3 * r + 1];
            rowterms::put_field(names, a, rows.variants[r], p, out)
        }
    }
}

// The rows whose entry in `skipped` is 0, in order, each with the terms that it names renumbered by `names`.
#[tactic(auto, using(crate::proofs::Midway::rows_laws))]
pub fn put_rows(
    types: &TypeTable,
    rows: &RowTable,
    names: &[u8; 24],
    skipped: &[u8; 24],
    out: &mut Writer,
) -> Option<()>
    requires { SomeRows types.now rows.now }
    ensures { PutsRows types.now rows.now names.now skipped.now out.old result out.new }
{
    for r in 0..rows.many {
        if skipped[r] == 0 {
            put_row(types, rows, names, r, out)?;
        }
    }
    Some(())
}
