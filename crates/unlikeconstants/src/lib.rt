// Whether a class of a node holds two constants of different value.
#![tactic(auto)]

ghost use Rattle.std.specs.Prelude.{◌≡◌, ◌<◌};
ghost use Rattle.loops.specs.Lowest.{Finds};
ghost use Rattle.unlikeconstants.specs.Unlike.{has_other, is_constant_of, other_constant, unlike_in};

use constants::Constants;

// Whether slot `k` has a constant of this class.
#[tactic(auto, unfolding(crate::specs::Unlike::is_constant_of))]
fn is_constant_of(classes: &[u8; 96], constants: &Constants, class: u8, k: usize) -> bool
    requires { k < 30 }
    ensures { result ≡ is_constant_of constants.now.sorts classes.now class k }
{
    constants.sort(k) != 0 && classes::class_of(classes, constants::constant_term(k)) == class
}

// The lowest slot that has one.
#[tactic(auto, using(loops::proofs::Loops::finds))]
pub fn first_constant(classes: &[u8; 96], constants: &Constants, class: u8) -> Option<usize>
    ensures { Finds (is_constant_of constants.now.sorts classes.now class) 30 result }
{
    loops::lowest(30, |k| is_constant_of(classes, constants, class, k))
}

// Whether slot `k` has one, of another value than slot `first`.
#[tactic(auto, unfolding(crate::specs::Unlike::other_constant))]
fn is_other_constant(
    classes: &[u8; 96],
    constants: &Constants,
    class: u8,
    first: usize,
    k: usize,
) -> bool
    requires { k < 30 }
    ensures { result ≡ other_constant constants.now.sorts constants.now.values classes.now class first k }
{
    is_constant_of(classes, constants, class, k) && constants.value(k) != constants.value(first)
}

// Whether a class has a constant of another value than slot `first`.
#[tactic(auto, using(crate::proofs::UnlikeTests::others_pass))]
fn has_other(classes: &[u8; 96], constants: &Constants, class: u8, first: usize) -> bool
    ensures { result ≡ has_other constants.now.sorts constants.now.values classes.now class first }
{
    loops::any(
        30,
        |k| is_other_constant(classes, constants, class, first, k),
    )
}

// Whether a class holds two constants of different value: one differs from the first.
#[tactic(auto, using(crate::proofs::UnlikeTests::by_first, crate::proofs::UnlikeTests::no_first))]
pub fn holds_unlike(classes: &[u8; 96], constants: &Constants, class: u8) -> bool
    ensures { result ≡ unlike_in constants.now.sorts constants.now.values classes.now class }
{
    match first_constant(classes, constants, class) {
        Some(first) => has_other(classes, constants, class, first),
        None => false,
    }
}
