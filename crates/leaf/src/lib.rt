// An open node as the messages are drawn from it: one value, so that a function that draws a class takes all of it at once.
#![tactic(auto)]

ghost use Rattle.std.specs.Prelude.{ℕ, ◌≤◌, ◌<◌, get_or};
ghost use Rattle.arrays.specs.Slots.{kind_at};

use classes::State;
use constants::Constants;
use labelled::Sorts;
use slots::Shapes;

// The state of the node, what the closure looks at, the classes that get a message (0 in `marks`) and their ranks.
#[derive(Clone, Copy)]
pub struct Leaf {
    pub state: State,
    pub shapes: Shapes,
    pub sorts: Sorts,
    pub constants: Constants,
    pub marks: [u8; 96],
    pub ranks: [u8; 96],
    // a kind is one more than a type and a variant, in four bits each
    pub ghost kinds: { (k : ℕ) → k < 30 → kind_at shapes.slots k ≤ 256 },
    pub ghost ranks_low: { (c : ℕ) → get_or ranks c 0 ≤ 31 },
}
