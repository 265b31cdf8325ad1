// Shapes by their keys, numbers to compare, so that most pairs are not looked at.
#![tactic(auto)]

ghost use Rattle.std.specs.Prelude.{◌≡◌, false, ◌+◌, ◌<◌};
ghost use Rattle.passes.specs.Pass.{Pass};
ghost use Rattle.congruence.specs.Due.{shape_due, shapes_due};
ghost use Rattle.keys.specs.Keys.{Keyed, Quiet, owner_key, parts_key};

use classes::State;
use slots::Shapes;

// The kind and the classes of all parts as one number.
fn parts_key(state: &State, shapes: &Shapes, k: usize) -> u32
    requires { k < 30 }
    ensures { result ≡ parts_key shapes.now.slots state.now k }
{
    let first = state.class_of(shapes.part(k, 0)) as u32;
    let second = state.class_of(shapes.part(k, 1)) as u32;
    let third = state.class_of(shapes.part(k, 2)) as u32;
    16777216 * ((shapes.kind(k) % 256) as u32) + 65536 * first + 256 * second + third
}

// The kind and the class of the term, and 1 more.
fn owner_key(state: &State, shapes: &Shapes, k: usize) -> u32
    requires { k < 30 }
    ensures { result ≡ owner_key shapes.now.slots state.now k }
{
    let class = state.class_of(shapes.owner(k)) as u32;
    256 * ((shapes.kind(k) % 256) as u32) + class + 1
}

// The two keys of each shape; an owner's is 0 where the shape is not active.
#[derive(Drop)]
struct Keys {
    parts: [u32; 30],
    owners: [u32; 30],
}

impl Keys {
    // In place, since the compiler copies what a function makes and hands out.
    fn fill(&mut self, state: &State, shapes: &Shapes)
        requires { Keyed shapes.now.slots state.now 0 self.old.parts self.old.owners }
        ensures { Keyed shapes.now.slots state.now 30 self.new.parts self.new.owners }
    {
        for k in 0..30 {
            if shapes.active(state, k) {
                self.parts[k] = parts_key(state, shapes, k);
                self.owners[k] = owner_key(state, shapes, k);
            }
        }
    }

    // Whether shape `k` and one before it agree in one key and not in the other. All are compared, without a way out, so
    // that the compiler can do several at once.
    fn differs(&self, k: usize) -> bool
        requires { k < 30 }
        ensures { result ≡ false → Quiet self.now.parts self.now.owners k }
    {
        let owner = self.owners[k];
        if owner == 0 {
            return false;
        }
        let part = self.parts[k];
        let mut any = false;
        for i in 0..k {
            any |= (self.parts[i] == part) != (self.owners[i] == owner);
        }
        any
    }
}

// A shape and those before it, if the keys leave anything to do.
fn pass_keyed(state: &mut State, shapes: &Shapes, keys: &Keys, k: usize) -> bool
    requires k_bound { k < 30 }
    requires keyed { Keyed shapes.now.slots state.old 30 keys.now.parts keys.now.owners }
    ensures { Pass (λ s. shape_due shapes.now.slots s k) state.old state.new result }
{
    state.held();
    if !keys.differs(k) {
        return false;
    }
    congruence::pass_shape(state, shapes, k)
}

// The shapes in turn, until one changes something: then the keys are no longer those of the state.
pub fn pass_shapes(state: &mut State, shapes: &Shapes) -> bool
    ensures { Pass (shapes_due shapes.now.slots) state.old state.new result }
{
    let mut keys = Keys {
        parts: [0; 30],
        owners: [0; 30],
    };
    keys.fill(state, shapes);
    for k in 0..30 {
        if pass_keyed(state, shapes, &keys, k) {
            return true;
        }
    }
    false
}
