// Ranks of the classes of a node, by rounds: they fall from each class to its parts, or there are none.
#![tactic(auto)]

ghost use Rattle.std.specs.Prelude.{◌≡◌, ◌<◌, get_or};
ghost use Rattle.guard.specs.Closure.{class_of};
ghost use Rattle.ranks.specs.Ranks.{is_above, low, part_above, raised, raised_to, raises_to, ranking_of};

use classes::State;
use slots::Shapes;

pub fn rank_at(state: &State, ranks: &[u8; 96], x: u8) -> u8
    requires { x < 96 }
    ensures { result ≡ get_or ranks.now (class_of state.now x) 0 }
{
    ranks[state.class_of(x) as usize]
}

// Whether part p of shape k has the rank of the shape or a higher one.
fn is_above(state: &State, shapes: &Shapes, ranks: &[u8; 96], k: usize, p: usize) -> bool
    requires { (k < 30) × (p < 3) }
    ensures { result ≡ is_above shapes.now.slots state.now.classes ranks.now k p }
{
    rank_at(state, ranks, shapes.owner(k)) <= rank_at(state, ranks, shapes.part(k, p))
}

// Whether some part of shape k has.
#[tactic(auto, using(loops::proofs::Loops::some_passes), unfolding(crate::specs::Ranks::part_above))]
fn part_above(state: &State, shapes: &Shapes, ranks: &[u8; 96], k: usize) -> bool
    requires { k < 30 }
    ensures { result ≡ part_above shapes.now.slots state.now.classes ranks.now k }
{
    loops::any(shapes.many(k), |p| is_above(state, shapes, ranks, k, p))
}

// The class of shape k gets the number of the round if it is not above its parts; true if so.
#[tactic(auto, unfolding(crate::specs::Ranks::low, crate::specs::Ranks::raised))]
fn raise(state: &State, shapes: &Shapes, ranks: &mut [u8; 96], round: u8, k: usize) -> bool
    requires { k < 30 }
    ensures value { result ≡ low shapes.now.slots state.now ranks.old k }
    ensures ranks_after { ranks.new ≡ raised shapes.now.slots state.now round k ranks.old }
{
    if !part_above(state, shapes, ranks, k) {
        return false;
    }
    if !shapes.active(state, k) {
        return false;
    }
    let c = state.class_of(shapes.owner(k)) as usize;
    ranks[c] = round;
    true
}

// One round over all shapes; true if a class was raised.
#[tactic(auto, unfolding(crate::specs::Ranks::raised_to, crate::specs::Ranks::raises_to))]
fn raise_all(state: &State, shapes: &Shapes, ranks: &mut [u8; 96], round: u8) -> bool
    ensures value { result ≡ raises_to shapes.now.slots state.now round 30 ranks.old }
    ensures ranks_after { ranks.new ≡ raised_to shapes.now.slots state.now round 30 ranks.old }
{
    let mut any = false;
    for k in 0..30 {
        any |= raise(state, shapes, ranks, round, k);
    }
    any
}

// Ranks of the classes; true if they fall from each class to its parts, that is if no class is a part of itself.
pub fn rank_classes(state: &State, shapes: &Shapes, ranks: &mut [u8; 96]) -> bool
    ensures value { result ≡ (ranking_of shapes.now.slots state.now).falls }
    ensures ranks_after { ranks.new ≡ (ranking_of shapes.now.slots state.now).ranks }
{
    *ranks = [0u8; 96];
    for round in 1..32 {
        if !raise_all(state, shapes, ranks, round) {
            return true;
        }
    }
    false
}
