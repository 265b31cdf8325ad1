// What the types part of a guard file is asked where a list of numbers is to be written: the questions of document 01, and 18,
// whether at most one type is a number type. `specs/Asked.antt` says what is answered.
#![tactic(auto)]

ghost use Rattle.std.specs.Prelude.{◌≡◌, ◌≤◌, leb};
ghost use Rattle.guard.specs.File.{bytes};
ghost use Rattle.guard.specs.Limits.{base};
ghost use Rattle.serialize.specs.NumberList.{types_asked};
ghost use Rattle.numbertypes.specs.Asked.{Asks, zeroes};

use guard::Question;

// Whether at most one of the first types has no variant: such a type is a number type.
#[tactic(auto, using(crate::proofs::AskedLaws::zeroes_count))]
fn one_number_type(many: usize, variants: &[u8; 6]) -> bool
    requires { many ≤ 6 }
    ensures { result ≡ leb (zeroes variants.now many) 1 }
{
    variants[..many].iter().filter(|n| **n == 0).count() <= 1
}

// The questions about the types part, 18 the last of them: the first that gets a no.
pub fn types_question(file: &[u8]) -> Result<(), Question>
    ensures { Asks (types_asked bytes base file.now) result }
{
    let t = typereader::read_types(file, 6)?;
    let table = t.value;
    datatypes::type_facts(table)?;
    let variants = table.variants;
    if !one_number_type(table.many, &variants) {
        return Err(Question::TwoNumberTypes);
    }
    Ok(())
}
