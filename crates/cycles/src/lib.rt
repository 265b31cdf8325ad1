// The lowest term whose class is a part of itself: the fourth reason to close a node, by name.
#![tactic(auto)]

ghost use Rattle.std.specs.Prelude.{◌<◌};
ghost use Rattle.cycles.specs.Cycles.{Inside, LowestOf, Tells};

use classes::State;
use slots::Shapes;

// Whether term `x` is there and its class is a part of itself: it is among the parts of itself and of what these have.
pub fn is_inside(state: &State, shapes: &Shapes, sorts: &[u8; 96], x: u8) -> bool
    requires { x < 78 }
    ensures { Tells (Inside shapes.now.slots sorts.now state.now x) result }
{
    if sorts[x as usize] == 0 {
        return false;
    }
    state.held();
    let class = state.class_of(x);
    needed::parts_of(state, shapes, class)[class as usize] == 0
}

// The lowest term whose class is a part of itself.
#[tactic(auto, using(crate::proofs::PartLaws::lowest_told))]
pub fn inside_itself(state: &State, shapes: &Shapes, sorts: &[u8; 96]) -> Option<usize>
    ensures { LowestOf (Inside shapes.now.slots sorts.now state.now) 78 result }
{
    loops::lowest(78, |x| is_inside(state, shapes, sorts, x as u8))
}
