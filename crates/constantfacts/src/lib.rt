// Constants of one type and one value made equal, before any rule.
#![tactic(auto)]

ghost use Rattle.std.specs.Prelude.{◌≡◌, ◌<◌};
ghost use mathlib.Core.List.{foldl};
ghost use Rattle.guard.specs.Closure.{add};
ghost use Rattle.constantfacts.specs.Equal.{constants_at, constants_by, constants_meet, same_constant};

use classes::State;
use constants::Constants;

#[tactic(auto, unfolding(crate::specs::Equal::same_constant))]
fn same_constant(constants: &Constants, k: usize, i: usize) -> bool
    requires { (k < 30) × (i < 30) }
    ensures { result ≡ same_constant constants.now.sorts constants.now.values k i }
{
    let sort = constants.sort(k);
    if sort == 0 {
        return false;
    }
    if constants.sort(i) != sort {
        return false;
    }
    constants.value(i) == constants.value(k)
}

// Constants of one type and one value are equal.
#[tactic(auto, unfolding(crate::specs::Equal::constants_meet))]
fn meet_constants(state: &mut State, constants: &Constants, k: usize, i: usize)
    requires { (k < 30) × (i < 30) }
    ensures { state.new ≡ foldl add state.old (constants_meet constants.now.sorts constants.now.values k i) }
{
    if same_constant(constants, k, i) {
        state.unite(constants::constant_term(i), constants::constant_term(k));
    }
}

// A constant and those before it.
#[tactic(auto, using(facts::proofs::Adding::next_slot), unfolding(crate::specs::Equal::constants_at))]
fn join_constant(state: &mut State, constants: &Constants, k: usize)
    requires { k < 30 }
    ensures { state.new ≡ foldl add state.old (constants_at constants.now.sorts constants.now.values k) }
{
    for i in 0..k {
        meet_constants(state, constants, k, i);
    }
}

#[tactic(auto, using(facts::proofs::Adding::next_slot), unfolding(crate::specs::Equal::constants_by))]
pub fn join_constants(state: &mut State, constants: &Constants)
    ensures { state.new ≡ foldl add state.old (constants_by constants.now.sorts constants.now.values) }
{
    for k in 0..30 {
        join_constant(state, constants, k);
    }
}
