// The search over decisions, depth first, with a budget of nodes. `specs/` says what it gives.
#![tactic(auto)]

ghost use Rattle.std.specs.Prelude.{◌≤◌};
ghost use Rattle.reasons.specs.Reasons.{LinesFit};
ghost use Rattle.tallies.specs.Outcome.{tally_of, total};
ghost use Rattle.search.specs.Nodes.{Searches};

use classes::State;
use instance::Instance;
use slots::Reads;
use tallies::{Outcome, Tally};

// A node from the state that it begins with: its closure, then closed, open, or its children, "is" before "isn't". The
// state comes back as the closure of the open node, where one was found.
pub fn visit(state: &mut State, instance: &Instance, reads: &Reads, tally: Tally) -> Outcome
    requires lines_fit { LinesFit instance.now.lines.terms instance.now.lines.others }
    requires few_lines { instance.now.lines.many ≤ 64 }
    requires tally_bound { total tally ≤ 4294967295 }
    ensures searches { Searches instance.now reads.now.slots tally state.old result state.new }
    ensures result_bound { total (tally_of result) ≤ total tally }
{
    if tally.left == 0 {
        return Outcome::Spent(tally);
    }
    saturation::saturate(state, &instance.shapes, reads, &instance.sorts);
    state.held();
    if nodes::is_closed(state, instance) {
        return Outcome::Closed(tallies::with_leaf(tally));
    }
    let Some(d) = splits::split(state, reads, &instance.sorts) else {
        return Outcome::Open(tallies::with_leaf(tally));
    };
    let bit = labels::only(d.variant as u32);
    let mut own = *state;
    own.restrict(d.term, bit);
    let first = visit(
        &mut own,
        instance,
        reads,
        tallies::with_split(tally, d.first),
    );
    if !tallies::is_closed(first) {
        *state = own;
        return first;
    }
    state.restrict(d.term, 65535 - bit);
    visit(state, instance, reads, tallies::tally_of(first))
}
