// Terms of one fieldless variant alone are equal: one pass with a table of the first term met of each.
#![tactic(auto)]

ghost use Rattle.std.specs.Prelude.{◌≡◌, false, ◌+◌, ◌<◌};
ghost use Rattle.singles.specs.Due.{PassOrStop, StopsBy, singles_due};
ghost use Rattle.singles.specs.Entered.{Advance, NeverAlone, SeenFit, place_of};

use classes::State;
use labelled::Sorts;

// The term at which a pass stopped.
#[derive(Clone, Copy)]
pub struct StoppedAt {
    pub term: u8,
}

// The place of a term's variant in the table of terms met.
#[tactic(auto, using(labelled::proofs::Listing::sort_small))]
fn place(sorts: &Sorts, x: u8, v: u32) -> usize
    requires { (x < 96) × (v < 16) }
    ensures value { result ≡ place_of sorts.now.sorts x v }
    ensures inside { result < 112 }
{
    16 * (sorts.sorts[x as usize] as usize) + (v as usize)
}

// A term of one fieldless variant is equal to the first such term, or is the first.
fn enter(state: &mut State, sorts: &Sorts, seen: &mut [u8; 112], x: u8, v: u32) -> bool
    requires x_bound { (x < 78) × (v < 16) }
    requires seen_fit { SeenFit sorts.now.sorts seen.old x v }
    ensures advance { Advance sorts.now.sorts sorts.now.fieldless state.old seen.old x v state.new seen.new x (v + 1) result }
    ensures seen_fit_2 { SeenFit sorts.now.sorts seen.new x (v + 1) }
{
    if !sorts.only_is(state, x, v) {
        return false;
    }
    let w = place(sorts, x, v);
    let y = seen[w];
    if y == 255 {
        seen[w] = x;
        return false;
    }
    if !sorts.only_is(state, y, v) {
        return false;
    }
    state.unite(y, x)
}

// A term at all variants that may be its own: at its lowest, or at each where the label is empty.
fn enter_term(state: &mut State, sorts: &Sorts, seen: &mut [u8; 112], x: u8) -> bool
    requires x_bound { x < 78 }
    requires seen_fit { SeenFit sorts.now.sorts seen.old x 0 }
    ensures advance { Advance sorts.now.sorts sorts.now.fieldless state.old seen.old x 0 state.new seen.new (x + 1) 0 result }
    ensures seen_fit_2 { SeenFit sorts.now.sorts seen.new (x + 1) 0 }
{
    let lowest = labels::lowest(state.label_of(x));
    if lowest < 16 {
        return enter(state, sorts, seen, x, lowest);
    }
    let mut changed = false;
    for v in 0..16 {
        changed |= enter(state, sorts, seen, x, v);
    }
    changed
}

// Whether a term may be of one fieldless variant alone; most are not.
fn may_be_alone(state: &State, sorts: &Sorts, x: u8) -> bool
    requires { x < 96 }
    ensures { result ≡ false → NeverAlone sorts.now.sorts sorts.now.fieldless state.now x }
{
    if sorts.fieldless_of(x) == 0 {
        return false;
    }
    labels::size(state.label_of(x)) < 2
}

// All terms that may be alone: whether anything changed, or the term that it stops at.
pub fn pass_singles<F: Fn(&State, u8) -> bool>(
    state: &mut State,
    sorts: &Sorts,
    stops: F,
) -> Result<bool, StoppedAt>
    requires { (s : _) (x : _) → x < 78 → F.pre stops s x }
    ensures { PassOrStop (singles_due sorts.now.sorts sorts.now.fieldless) (StopsBy (F.post stops)) state.old state.new result }
{
    // 255 where none was met yet. With an `Option` in each place, which is two bytes, a closure took a third longer.
    let mut seen = [255u8; 112];
    let mut changed = false;
    let listed = sorts.labelled();
    for &x in listed {
        if !may_be_alone(state, sorts, x) {
            continue;
        }
        if stops(state, x) {
            return Err(StoppedAt { term: x });
        }
        changed |= enter_term(state, sorts, &mut seen, x);
    }
    Ok(changed)
}
