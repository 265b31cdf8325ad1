// Terms built by one variant: equal parts make them equal, and equal ones have equal parts.
#![tactic(auto)]

ghost use Rattle.std.specs.Prelude.{◌≡◌, true, ◌<◌};
ghost use Rattle.passes.specs.Pass.{Pass};
ghost use Rattle.congruence.specs.Due.{alike, parts_due, same_owners, same_parts, shape_due, shapes_meet};

use classes::State;
use slots::Shapes;

// Two shapes of one variant.
#[tactic(auto, unfolding(crate::specs::Due::alike))]
fn alike(state: &State, shapes: &Shapes, k: usize, i: usize) -> bool
    requires { (k < 30) × (i < 30) }
    ensures { result ≡ alike shapes.now.slots state.now k i }
{
    shapes.kind(k) == shapes.kind(i) && shapes.active(state, k) && shapes.active(state, i)
}

fn same_parts(state: &State, shapes: &Shapes, k: usize, i: usize) -> bool
    requires { (k < 30) × (i < 30) }
    ensures { result ≡ same_parts shapes.now.slots state.now k i }
{
    (0..shapes.many(k)).all(|p| state.same_class(shapes.part(i, p), shapes.part(k, p)))
}

// Equal terms built by one variant have equal parts.
fn join_parts(state: &mut State, shapes: &Shapes, k: usize, i: usize) -> bool
    requires k_bound { (k < 30) × (i < 30) }
    requires i_value { alike shapes.now.slots state.old k i ≡ true }
    requires i_value_2 { same_owners shapes.now.slots state.old k i ≡ true }
    ensures { Pass (λ s. parts_due shapes.now.slots s k i) state.old state.new result }
{
    let mut changed = false;
    for p in 0..shapes.many(k) {
        changed |= state.unite(shapes.part(i, p), shapes.part(k, p));
    }
    changed
}

// What two shapes say of each other. Most pairs are of two kinds, and say nothing.
fn meet_shapes(state: &mut State, shapes: &Shapes, k: usize, i: usize) -> bool
    requires { (k < 30) × (i < 30) }
    ensures { Pass (λ s. shapes_meet shapes.now.slots s k i) state.old state.new result }
{
    if !alike(state, shapes, k, i) {
        return false;
    }
    if state.same_class(shapes.owner(i), shapes.owner(k)) {
        return join_parts(state, shapes, k, i);
    }
    if !same_parts(state, shapes, k, i) {
        return false;
    }
    state.unite(shapes.owner(i), shapes.owner(k))
}

// A shape and those before it.
pub fn pass_shape(state: &mut State, shapes: &Shapes, k: usize) -> bool
    requires { k < 30 }
    ensures { Pass (λ s. shape_due shapes.now.slots s k) state.old state.new result }
{
    if !shapes.active(state, k) {
        return false;
    }
    let mut changed = false;
    for i in 0..k {
        changed |= meet_shapes(state, shapes, k, i);
    }
    changed
}
