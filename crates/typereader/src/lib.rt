// Reads the types part of a guard file into the table of types: questions 2 to 5 of it.
#![tactic(auto)]

ghost use Rattle.std.specs.Prelude.{◌≡◌, suc, ◌-◌, ◌≤◌, min, drop};
ghost use Rattle.numbers.specs.Reader.{Reads};
ghost use Rattle.variantreader.specs.VariantReader.{Stores};
ghost use Rattle.typereader.specs.TypeReader.{one_type, table_by, type_by};

use guard::Question;
use numbers::{Read, read_asked};
use tables::TypeTable;
use variantreader::read_variants;

// How many variants a type may still have after so many, and one more.
fn room_after(total: usize) -> u32
    requires { total ≤ 48 }
    ensures { result ≡ suc (min 16 (48 - total)) }
{
    let left = 48 - total;
    left.min(16) as u32 + 1
}

// Reads a type, which is how many variants it has, and stores these behind the `total` that are there.
fn read_type(
    bytes: &[u8],
    at: usize,
    many: u32,
    total: usize,
    arities: &mut [u8; 48],
    sorts: &mut [u8; 144],
) -> Result<Read<usize>, Question>
    requires { (total ≤ 48) × (many ≤ 6) }
    ensures reads { Reads (type_by many total (drop at bytes.now)) bytes.now result }
    ensures stores { Stores (one_type many total) (drop at bytes.now) total arities.old sorts.old arities.new sorts.new }
{
    let n = read_asked(bytes, at, room_after(total), Question::TooMany)?;
    let count = n.value as usize;
    let p = read_variants(bytes, n.at, count, many, total, arities, sorts)?;
    Ok(Read {
        value: count,
        at: p.at,
    })
}

// The types part, from the start of the file.
pub fn read_types(bytes: &[u8], limit: u32) -> Result<Read<TypeTable>, Question>
    requires { limit ≤ 6 }
    ensures { Reads (table_by limit bytes.now) bytes.now result }
{
    let n = read_asked(bytes, 0, limit + 1, Question::TooMany)?;
    let many = n.value as usize;
    let mut variants = [0u8; 6];
    let mut first = [0u8; 6];
    let mut arities = [0u8; 48];
    let mut sorts = [0u8; 144];
    let mut at = n.at;
    let mut total: usize = 0;
    for t in 0..many {
        let one = read_type(bytes, at, n.value, total, &mut arities, &mut sorts)?;
        variants[t] = one.value as u8;
        first[t] = total as u8;
        total += one.value;
        at = one.at;
    }
    Ok(Read {
        value: TypeTable {
            many,
            variants,
            first,
            arities,
            sorts,
        },
        at,
    })
}
