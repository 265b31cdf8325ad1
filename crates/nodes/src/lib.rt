// A node: closed for one of the four reasons, or open.
#![tactic(auto)]

ghost use Rattle.std.specs.Prelude.{◌≡◌, ◌≤◌};
ghost use Rattle.reasons.specs.Reasons.{LinesFit};
ghost use Rattle.nodes.specs.Closed.{closed};

use classes::State;
use instance::Instance;
use levels::is_cyclic;
use reasons::{broken_line, empty_label, unlike_constants};

// Whether one of the four reasons closes the node, the dearest to find out last.
#[tactic(auto, using(loops::proofs::Loops::finds_test), unfolding(crate::specs::Closed::closed_by))]
pub fn is_closed(state: &State, instance: &Instance) -> bool
    requires lines_fit { LinesFit instance.now.lines.terms instance.now.lines.others }
    requires many_bound { instance.now.lines.many ≤ 64 }
    ensures { result ≡ closed instance.now state.now }
{
    empty_label(state, &instance.sorts).is_some()
        || broken_line(state.classes(), &instance.lines).is_some()
        || unlike_constants(state, &instance.constants).is_some()
        || is_cyclic(state, &instance.shapes)
}
