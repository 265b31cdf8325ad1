// Writes rows that name terms, from tables by a writer, with these terms renumbered. `specs/Rows.antt` says what bytes a row has.
#![tactic(auto)]

ghost use Rattle.std.specs.Prelude.{◌<◌};
ghost use Rattle.guard.specs.Guard.{Row};
ghost use Rattle.encoding.specs.Encoding.{encoded};
ghost use Rattle.bytebuffer.specs.Appends.{Appends};
ghost use Rattle.rowterms.specs.Rows.{BuiltRow, PartCount, PartsInside, PutsRow, part_bytes, row_bytes, up_to};

use bytebuffer::Writer;
use tables::{RowTable, TypeTable};

// A kind or the number of a term.
fn put_small(out: &mut Writer, n: u8) -> Option<()>
    ensures { Appends (encoded n) out.old result out.new }
{
    numberwriter::put_number(out, n as u64)
}

// The parts of a built row.
#[tactic(auto, using(crate::proofs::LoopLaws::loop_laws))]
fn put_parts(
    rows: &RowTable,
    names: &[u8; 24],
    r: usize,
    many: usize,
    out: &mut Writer,
) -> Option<()>
    requires { PartsInside rows.now r many }
    ensures { Appends (up_to (part_bytes names.now rows.now r) many) out.old result out.new }
{
    for i in 0..many {
        let part = rows.parts[3 * r + i] as usize;
        put_small(out, names[part])?;
    }
    Some(())
}

// How many parts a built row has: as many as its variant has fields.
pub fn part_count(types: &TypeTable, rows: &RowTable, r: usize) -> usize
    requires { BuiltRow types.now rows.now r }
    ensures { PartCount types.now rows.now r result }
{
    let t = rows.types[r] as usize;
    let v = rows.variants[r] as usize;
    let place = types.first[t] as usize + v;
    types.arities[place] as usize
}

// Row `r`, a built one.
#[tactic(auto, using(crate::proofs::RowLaws::built_laws))]
pub fn put_built(
    types: &TypeTable,
    rows: &RowTable,
    names: &[u8; 24],
    r: usize,
    out: &mut Writer,
) -> Option<()>
    requires { BuiltRow types.now rows.now r }
    ensures { PutsRow types.now rows.now names.now r out.old result out.new }
{
    out.put(&[2, rows.types[r], rows.variants[r]])?;
    let many = part_count(types, rows, r);
    put_parts(rows, names, r, many, out)
}

// A field read: of term `a` as variant `v`, at position `p`.
pub fn put_field(names: &[u8; 24], a: u8, v: u8, p: u8, out: &mut Writer) -> Option<()>
    requires { (a < 24) × (v < 128) × (p < 128) }
    ensures { Appends (row_bytes names.now (Row.field 0 a v p)) out.old result out.new }
{
    put_small(out, 3)?;
    let name = names[a as usize];
    put_small(out, name)?;
    out.put(&[v, p])
}
