// Reads the variants of a type into two columns, behind those that are there: questions 2 to 5 of them.
#![tactic(auto)]

ghost use Rattle.std.specs.Prelude.{◌≡◌, ◌+◌, ◌*◌, ◌<◌, ◌≤◌, length, drop, set};
ghost use Rattle.guard.specs.Number.{times};
ghost use Rattle.guard.specs.File.{variant};
ghost use Rattle.numbers.specs.Reader.{Reads};
ghost use Rattle.variantreader.specs.VariantReader.{Stores, sorts_by, store_three, variant_by, variants_by};

use guard::Question;
use numbers::{Read, read_asked};

// A variant: how many fields it has, and their types, filled up with zeros.
#[derive(Clone, Copy)]
struct Variant {
    arity: u8,
    sorts: [u8; 3],
}

// So many types of fields, each below `many`.
fn read_sorts(bytes: &[u8], at: usize, arity: usize, many: u32) -> Result<Read<[u8; 3]>, Question>
    requires { (arity ≤ 3) × (many ≤ 6) × (at ≤ length bytes.now) }
    ensures { Reads (sorts_by arity many (drop at bytes.now)) bytes.now result }
{
    let mut sorts = [0u8; 3];
    let mut next = at;
    for i in 0..arity {
        let n = read_asked(bytes, next, many, Question::UnknownName)?;
        sorts[i] = n.value as u8;
        next = n.at;
    }
    Ok(Read {
        value: sorts,
        at: next,
    })
}

fn read_variant(bytes: &[u8], at: usize, many: u32) -> Result<Read<Variant>, Question>
    requires { many ≤ 6 }
    ensures { Reads (variant_by many (drop at bytes.now)) bytes.now result }
{
    let n = read_asked(bytes, at, 4, Question::TooMany)?;
    let f = read_sorts(bytes, n.at, n.value as usize, many)?;
    let sorts = f.value;
    Ok(Read {
        value: Variant {
            arity: n.value as u8,
            sorts,
        },
        at: f.at,
    })
}

// Stores a variant as number `w`.
fn store_variant(arities: &mut [u8; 48], sorts: &mut [u8; 144], w: usize, r: Variant)
    requires { w < 48 }
    ensures { (arities.new ≡ set arities.old w r.arity) × (sorts.new ≡ store_three sorts.old (3 * w) r.sorts) }
{
    let three = r.sorts;
    arities[w] = r.arity;
    sorts[3 * w] = three[0];
    sorts[3 * w + 1] = three[1];
    sorts[3 * w + 2] = three[2];
}

// Reads so many variants and stores them behind the `w` that are there.
pub fn read_variants(
    bytes: &[u8],
    at: usize,
    count: usize,
    many: u32,
    w: usize,
    arities: &mut [u8; 48],
    sorts: &mut [u8; 144],
) -> Result<Read<()>, Question>
    requires { (w + count ≤ 48) × (many ≤ 6) × (at ≤ length bytes.now) }
    ensures reads { Reads (variants_by count many (drop at bytes.now)) bytes.now result }
    ensures stores { Stores (times count (variant many)) (drop at bytes.now) w arities.old sorts.old arities.new sorts.new }
{
    let mut next = at;
    for i in 0..count {
        let r = read_variant(bytes, next, many)?;
        store_variant(arities, sorts, w + i, r.value);
        next = r.at;
    }
    Ok(Read {
        value: (),
        at: next,
    })
}
