// The state of the root before any rule: what the guard gives.
#![tactic(auto)]

ghost use Rattle.std.specs.Prelude.{◌≡◌};
ghost use mathlib.Core.List.{foldl};
ghost use Rattle.guard.specs.Closure.{add};
ghost use Rattle.guard.proofs.ClosureEnds.{first};
ghost use Rattle.literalfacts.specs.Literals.{LiteralsFit};
ghost use Rattle.given.specs.Given.{given_by};

use classes::State;
use instance::Instance;

// Each term in a class of its own, and then all that is given.
#[tactic(auto, using(facts::proofs::Adding::adds_all), unfolding(crate::specs::Given::given_by))]
pub fn begin(instance: &Instance) -> State
    requires { LiteralsFit instance.now.lines.kinds instance.now.lines.terms instance.now.lines.others instance.now.lines.many }
    ensures { result ≡ foldl add (first 96) (given_by instance.now.shapes.slots instance.now.sorts.sorts instance.now.sorts.full instance.now.constants.sorts instance.now.constants.values instance.now.lines.kinds instance.now.lines.terms instance.now.lines.others instance.now.lines.many) }
{
    let mut state = State::first();
    labelfacts::label_terms(&mut state, &instance.sorts);
    labelfacts::label_builds(&mut state, &instance.shapes);
    constantfacts::join_constants(&mut state, &instance.constants);
    literalfacts::assert_literals(&mut state, &instance.lines);
    state
}
