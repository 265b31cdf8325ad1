// The closure of a node: the passes of all families of rules, until nothing is new or a label is empty.
#![tactic(auto)]

ghost use Rattle.std.specs.Prelude.{◌<◌};
ghost use Rattle.passes.specs.Pass.{Saturated};
ghost use Rattle.singles.specs.Due.{PassOrStop, StopsBy};
ghost use Rattle.saturation.specs.Due.{Settled, all_due};

use classes::State;
use labelled::Sorts;
use singles::StoppedAt;
use slots::{Reads, Shapes};

// One pass that changed something, or all of them, and nothing is new; or the end at a term that it stops at.
fn advance<F: Fn(&State, u8) -> bool>(
    state: &mut State,
    shapes: &Shapes,
    reads: &Reads,
    sorts: &Sorts,
    stops: F,
) -> Result<bool, StoppedAt>
    requires { (s : _) (x : _) → x < 78 → F.pre stops s x }
    ensures { PassOrStop (all_due shapes.now.slots reads.now.slots sorts.now.sorts sorts.now.fieldless) (StopsBy (F.post stops)) state.old state.new result }
{
    if reads::pass_defaults(state, reads) {
        return Ok(true);
    }
    let changed = singles::pass_singles(state, sorts, stops)?;
    if changed {
        return Ok(true);
    }
    if keys::pass_shapes(state, shapes) {
        return Ok(true);
    }
    Ok(reads::pass_reads(state, reads))
}

// Adds what the rules give until nothing is new, or an empty label is met: that closes the node, whatever else the rules give.
pub fn saturate(state: &mut State, shapes: &Shapes, reads: &Reads, sorts: &Sorts)
    ensures { Settled shapes.now.slots reads.now.slots sorts.now.sorts sorts.now.full sorts.now.fieldless state.old state.new }
{
    while let Ok(true) = advance(state, shapes, reads, sorts, |state, x| {
        reasons::is_empty(state, sorts, x)
    }) {}
}

// Adds what the rules give until nothing is new, empty labels or not: the whole closure, for the record of a refutation.
pub fn saturate_fully(state: &mut State, shapes: &Shapes, reads: &Reads, sorts: &Sorts)
    ensures { Saturated (all_due shapes.now.slots reads.now.slots sorts.now.sorts sorts.now.fieldless) state.old state.new }
{
    while let Ok(true) = advance(state, shapes, reads, sorts, |_, _| false) {}
}
