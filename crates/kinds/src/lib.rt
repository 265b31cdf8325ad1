// What fixes a class of an open node: a shape, a constant, or one fieldless variant. A class with none of these is free. Crate
// `unlikeconstants` finds the constant.
#![tactic(auto)]

ghost use Rattle.std.specs.Prelude.{◌≡◌, ◌<◌};
ghost use Rattle.loops.specs.Lowest.{Finds};
ghost use Rattle.kinds.specs.Found.{is_shape, is_single};

use classes::State;
use labelled::Sorts;
use slots::Shapes;

#[tactic(auto, unfolding(crate::specs::Found::is_shape))]
fn is_shape(state: &State, shapes: &Shapes, class: u8, k: usize) -> bool
    requires { k < 30 }
    ensures { result ≡ is_shape shapes.now.slots state.now class k }
{
    shapes.active(state, k) && state.class_of(shapes.owner(k)) == class
}

// The lowest slot with a shape of this class.
#[tactic(auto, using(loops::proofs::Loops::finds))]
pub fn shape_of(state: &State, shapes: &Shapes, class: u8) -> Option<usize>
    ensures { Finds (is_shape shapes.now.slots state.now class) 30 result }
{
    loops::lowest(30, |k| is_shape(state, shapes, class, k))
}

#[tactic(auto, unfolding(crate::specs::Found::is_single))]
fn is_single(state: &State, sorts: &Sorts, class: u8, x: u8) -> bool
    requires { x < 78 }
    ensures { result ≡ is_single sorts.now.sorts sorts.now.fieldless state.now class x }
{
    let v = labels::lowest(state.label_of(x));
    state.class_of(x) == class && v < 16 && sorts.only_is(state, x, v)
}

// The lowest term of this class that is of one fieldless variant alone.
#[tactic(auto, using(labelled::proofs::Covering::listed_finds, crate::proofs::SingleTests::single_has_label))]
pub fn single_of(state: &State, sorts: &Sorts, class: u8) -> Option<u8>
    ensures { Finds (is_single sorts.now.sorts sorts.now.fieldless state.now class) 78 result }
{
    sorts.lowest_labelled(|x| is_single(state, sorts, class, x))
}
