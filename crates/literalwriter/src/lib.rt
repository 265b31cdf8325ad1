// The lines of a guard file from the table of literals, with other numbers for their terms. `specs/LiteralBytes.antt` says what is put.
// Every number of a line is below 128, and so one byte.
#![tactic(auto)]

ghost use Rattle.literalwriter.specs.LiteralBytes.{HasLiteral, PutsLiteral, PutsLiterals, SmallNames, SomeLiterals};

use bytebuffer::Writer;
use tables::LiteralTable;

// The kind, a term, and a second term or a variant.
#[tactic(auto, using(crate::proofs::LiteralLaws::literal_laws))]
fn put_literal(literals: &LiteralTable, i: usize, names: &[u8; 24], out: &mut Writer) -> Option<()>
    requires has_literal { HasLiteral literals.now i }
    requires small_names { SmallNames names.now }
    ensures { PutsLiteral literals.now i names.now out.old result out.new }
{
    let kind = literals.kinds[i];
    let term = names[literals.terms[i] as usize];
    let other = literals.others[i];
    if kind < 2 {
        return out.put(&[kind, term, names[other as usize]]);
    }
    out.put(&[kind, term, other])
}

// All literals. `names` has the number that each term gets.
#[tactic(auto, using(crate::proofs::LiteralLaws::literals_laws))]
pub fn put_literals(literals: &LiteralTable, names: &[u8; 24], out: &mut Writer) -> Option<()>
    requires some_literals { SomeLiterals literals.now }
    requires small_names { SmallNames names.now }
    ensures { PutsLiterals literals.now names.now out.old result out.new }
{
    for i in 0..literals.many {
        put_literal(literals, i, names, out)?;
    }
    Some(())
}
