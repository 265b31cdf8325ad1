// Whether a class is a part of itself: by levels, which are ranks upside down, in fewer rounds than by ranks.
#![tactic(auto)]

ghost use Rattle.std.specs.Prelude.{◌≡◌, not, ◌<◌};
ghost use Rattle.arrays.specs.Slots.{many_at};
ghost use Rattle.ranks.specs.Ranks.{ranking_of};
ghost use Rattle.levels.specs.Levels.{InOrder, LastInOrder, LowestPart, Sunk, bottomed};

use classes::State;
use ranks::rank_at;
use slots::Shapes;

// The lowest level of the parts of shape k, which has some.
fn lowest_part(state: &State, shapes: &Shapes, levels: &[u8; 96], k: usize, many: usize) -> u8
    requires k_bound { k < 30 }
    requires many_value { (many ≡ many_at shapes.now.slots k) × (0 < many) }
    ensures { LowestPart shapes.now.slots state.now.classes levels.now k many result }
{
    let mut low = rank_at(state, levels, shapes.part(k, 0));
    for p in 1..many {
        low = low.min(rank_at(state, levels, shapes.part(k, p)));
    }
    low
}

// The class of shape k sinks to one below its lowest part if it is not below it; true if so.
fn sink(state: &State, shapes: &Shapes, levels: &mut [u8; 96], k: usize) -> bool
    requires { k < 30 }
    ensures { Sunk shapes.now.slots state.now (InOrder shapes.now.slots state.now k) levels.old levels.new result }
{
    let many = shapes.many(k);
    if many == 0 {
        return false;
    }
    let low = lowest_part(state, shapes, levels, k, many);
    if low == 0 {
        return false;
    }
    let c = state.class_of(shapes.owner(k)) as usize;
    if levels[c] < low {
        return false;
    }
    if !shapes.active(state, k) {
        return false;
    }
    levels[c] = low - 1;
    true
}

// One round, from the last shape to the first: what is read from a row comes after it. True if a class sank.
fn sink_all(state: &State, shapes: &Shapes, levels: &mut [u8; 96]) -> bool
    ensures { Sunk shapes.now.slots state.now (LastInOrder shapes.now.slots state.now 30) levels.old levels.new result }
{
    let mut any = false;
    for k in (0..30).rev() {
        any |= sink(state, shapes, levels, k);
    }
    any
}

// Whether a class is at the bottom. Every level is looked at, without a way out, so that the compiler can do several at once.
#[tactic(auto, using(crate::proofs::LevelLaws::none_bottomed, crate::proofs::LevelLaws::bottomed_next))]
fn is_bottomed(levels: &[u8; 96]) -> bool
    ensures { result ≡ bottomed levels.now 96 }
{
    let mut any = false;
    for c in 0..96 {
        any |= levels[c] == 0;
    }
    any
}

// Whether a class is a part of itself.
pub fn is_cyclic(state: &State, shapes: &Shapes) -> bool
    ensures { result ≡ not (ranking_of shapes.now.slots state.now).falls }
{
    state.held();
    let mut levels = [31u8; 96];
    while sink_all(state, shapes, &mut levels) {}
    is_bottomed(&levels)
}
