// Which of the four reasons closes a node, and at which term or line: what the record of request #101 says of a closed node.
#![tactic(auto)]

ghost use Rattle.std.specs.Prelude.{◌≡◌, ◌≤◌, [], ◌∷◌};
ghost use Rattle.reasons.specs.Reasons.{LinesFit};
ghost use Rattle.refutations.specs.Record.{numbers_of};
ghost use Rattle.closings.specs.Closing.{Names, entry_in};

use classes::State;
use cycles::inside_itself;
use instance::Instance;
use reasons::{broken_line, empty_label, unlike_constants};

// A reason to close a node, with the number of the term or line that it is found at.
#[derive(Clone, Copy)]
pub enum Closing {
    EmptyLabel(u32),
    BrokenLine(u32),
    UnlikeConstants(u32),
    InsideItself(u32),
}

impl Closing {
    // The numbers that a record has for it: that of the reason, then that of the term or line.
    pub fn numbers(self) -> (u8, u32)
        ensures { numbers_of (entry_in self) ≡ result.0 ∷ result.1 ∷ [] }
    {
        match self {
            Closing::EmptyLabel(x) => (0, x),
            Closing::BrokenLine(j) => (1, j),
            Closing::UnlikeConstants(x) => (2, x),
            Closing::InsideItself(x) => (3, x),
        }
    }
}

// The lowest reason that applies, with its lowest term or line.
pub fn closing_of(state: &State, instance: &Instance) -> Option<Closing>
    requires lines_fit { LinesFit instance.now.lines.terms instance.now.lines.others }
    requires many_bound { instance.now.lines.many ≤ 64 }
    ensures { Names instance.now.shapes.slots instance.now.sorts.sorts instance.now.sorts.full instance.now.constants.sorts instance.now.constants.values instance.now.lines.kinds instance.now.lines.terms instance.now.lines.others instance.now.lines.many state.now result }
{
    if let Some(x) = empty_label(state, &instance.sorts) {
        return Some(Closing::EmptyLabel(x as u32));
    }
    if let Some(j) = broken_line(state.classes(), &instance.lines) {
        return Some(Closing::BrokenLine(j as u32));
    }
    if let Some(c) = unlike_constants(state, &instance.constants) {
        return Some(Closing::UnlikeConstants(c as u32));
    }
    if let Some(x) = inside_itself(state, &instance.shapes, &instance.sorts.sorts) {
        return Some(Closing::InsideItself(x as u32));
    }
    None
}
