// The bytes of a guard with lines behind its own, from tables. `specs/GuardBytes.antt` says what is put.
#![tactic(auto)]

ghost use Rattle.guardwriter.specs.GuardBytes.{Askable, PutsGuard, PutsLines, PutsRows};

use bytebuffer::Writer;
use tables::{LiteralTable, RowTable, TypeTable};

// N, and the rows.
fn put_rows(
    types: &TypeTable,
    rows: &RowTable,
    first: &LiteralTable,
    second: &LiteralTable,
    out: &mut Writer,
) -> Option<()>
    requires { Askable types.now rows.now first.now second.now }
    ensures { PutsRows types.now rows.now first.now second.now out.old result out.new }
{
    out.put(&[rows.many as u8])?;
    let own = mergewriter::own_names();
    let none = [0u8; 24];
    rowwriter::put_rows(types, rows, &own, &none, out)
}

// L, and the lines of both tables.
fn put_lines(
    types: &TypeTable,
    rows: &RowTable,
    first: &LiteralTable,
    second: &LiteralTable,
    out: &mut Writer,
) -> Option<()>
    requires { Askable types.now rows.now first.now second.now }
    ensures { PutsLines types.now rows.now first.now second.now out.old result out.new }
{
    out.put(&[(first.many + second.many) as u8])?;
    let own = mergewriter::own_names();
    literalwriter::put_literals(first, &own, out)?;
    literalwriter::put_literals(second, &own, out)
}

// The file of the guard, from the start of the buffer on.
pub fn put_guard(
    types: &TypeTable,
    rows: &RowTable,
    first: &LiteralTable,
    second: &LiteralTable,
    out: &mut [u8],
) -> Option<usize>
    requires { Askable types.now rows.now first.now second.now }
    ensures { PutsGuard types.now rows.now first.now second.now out.old result out.new }
{
    let mut writer = Writer::new(out);
    typewriter::put_types(types, &mut writer)?;
    put_rows(types, rows, first, second, &mut writer)?;
    put_lines(types, rows, first, second, &mut writer)?;
    Some(writer.at)
}
