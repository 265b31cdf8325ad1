// The bytes of two guards as one, from their tables (request #107). `specs/Merging.antt` says what is put.
#![tactic(auto)]

ghost use Rattle.std.specs.Prelude.{◌≡◌};
ghost use Rattle.laws.specs.Lists.{from};
ghost use Rattle.mergewriter.specs.Merging.{Merging, PutsAllLiterals, PutsAllRows, PutsMerged};

use bytebuffer::Writer;
use reader::Tables;
use renaming::Names;

// Each row under its own number.
pub fn own_names() -> [u8; 24]
    ensures { result ≡ from 24 0 }
{
    [
        0, 1, 2, 3, 4, 5, 6, 7, 8, 9, 10, 11, 12, 13, 14, 15, 16, 17, 18, 19, 20, 21, 22, 23,
    ]
}

// N, and the rows of both guards.
fn put_all_rows(first: &Tables, second: &Tables, n: &Names, out: &mut Writer) -> Option<()>
    requires { Merging first.now second.now n.now }
    ensures { PutsAllRows first.now second.now out.old result out.new }
{
    out.put(&[n.rows as u8])?;
    let own = own_names();
    let none = [0u8; 24];
    rowwriter::put_rows(&first.types, &first.rows, &own, &none, out)?;
    rowwriter::put_rows(&second.types, &second.rows, &n.names, &n.skipped, out)
}

// L, and the lines of both guards.
fn put_all_literals(first: &Tables, second: &Tables, n: &Names, out: &mut Writer) -> Option<()>
    requires { Merging first.now second.now n.now }
    ensures { PutsAllLiterals first.now second.now out.old result out.new }
{
    out.put(&[(first.literals.many + second.literals.many) as u8])?;
    literalwriter::put_literals(&first.literals, &own_names(), out)?;
    literalwriter::put_literals(&second.literals, &n.names, out)
}

// The merged file, from the start of the buffer on.
pub fn put_merged(first: &Tables, second: &Tables, n: &Names, out: &mut [u8]) -> Option<usize>
    requires { Merging first.now second.now n.now }
    ensures { PutsMerged first.now second.now out.old result out.new }
{
    let mut writer = Writer::new(out);
    typewriter::put_types(&first.types, &mut writer)?;
    put_all_rows(first, second, n, &mut writer)?;
    put_all_literals(first, second, n, &mut writer)?;
    Some(writer.at)
}
