// The type part of a guard file, from the table of types. `specs/TypeBytes.antt` says what is put. Every number of it is below 128, and so
// one byte.
#![tactic(auto)]

ghost use Rattle.typewriter.specs.TypeBytes.{HasType, HasVariant, PutsType, PutsTypes, PutsVariant, SomeTypes};

use bytebuffer::Writer;
use tables::TypeTable;

// How many fields a variant has, and their types. Variants are counted through all types.
#[tactic(auto, using(crate::proofs::TypeLaws::variant_laws))]
fn put_variant(types: &TypeTable, variant: usize, out: &mut Writer) -> Option<()>
    requires { HasVariant types.now variant }
    ensures { PutsVariant types.now variant out.old result out.new }
{
    let arity = types.arities[variant];
    out.put(&[arity])?;
    for j in 0..arity as usize {
        out.put(&[types.sorts[3 * variant + j]])?;
    }
    Some(())
}

// How many variants a type has, and these.
#[tactic(auto, using(crate::proofs::TypeLaws::type_laws))]
fn put_type(types: &TypeTable, t: usize, out: &mut Writer) -> Option<()>
    requires { HasType types.now t }
    ensures { PutsType types.now t out.old result out.new }
{
    let first = types.first[t] as usize;
    let count = types.variants[t];
    out.put(&[count])?;
    for v in 0..count as usize {
        put_variant(types, first + v, out)?;
    }
    Some(())
}

// How many types there are, and these.
#[tactic(auto, using(crate::proofs::TypeLaws::types_laws))]
pub fn put_types(types: &TypeTable, out: &mut Writer) -> Option<()>
    requires { SomeTypes types.now }
    ensures { PutsTypes types.now out.old result out.new }
{
    out.put(&[types.many as u8])?;
    for t in 0..types.many {
        put_type(types, t, out)?;
    }
    Some(())
}
