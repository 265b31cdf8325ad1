// What an entry of a record claims of a node that it closes: one of the four reasons, at a term or a line, tested at the node's closure. The
// numbers of an entry come from a record, and may be any.
#![tactic(auto)]

ghost use Rattle.std.specs.Prelude.{◌≤◌};
ghost use Rattle.reasons.specs.Reasons.{LinesFit};
ghost use Rattle.cycles.specs.Cycles.{Tells};
ghost use Rattle.claims.specs.Claims.{BrokenLine, ClosedBy, EmptyTerm, InsideTerm, UnlikeTerm};

use classes::State;
use closings::Closing;
use constants::Constants;
use instance::Instance;
use labelled::Sorts;
use slots::Shapes;
use splitclaims::term_of;
use tables::LiteralTable;

fn is_empty(state: &State, sorts: &Sorts, x: u32) -> bool
    ensures { Tells (EmptyTerm sorts.now.sorts sorts.now.full state.now x) result }
{
    match term_of(&sorts.sorts, x) {
        Some(term) => reasons::is_empty(state, sorts, term),
        None => false,
    }
}

fn is_broken(state: &State, lines: &LiteralTable, j: u32) -> bool
    requires many_bound { lines.now.many ≤ 64 }
    requires lines_fit { LinesFit lines.now.terms lines.now.others }
    ensures { Tells (BrokenLine lines.now.kinds lines.now.terms lines.now.others lines.now.many state.now.classes j) result }
{
    if lines.many <= j as usize {
        return false;
    }
    reasons::is_broken(state.classes(), lines, j as usize)
}

fn is_unlike(state: &State, sorts: &Sorts, constants: &Constants, x: u32) -> bool
    ensures { Tells (UnlikeTerm sorts.now.sorts constants.now.sorts constants.now.values state.now.classes x) result }
{
    match term_of(&sorts.sorts, x) {
        Some(term) => unlikeconstants::holds_unlike(
            state.classes(),
            constants,
            state.class_of(term),
        ),
        None => false,
    }
}

fn is_inside(state: &State, shapes: &Shapes, sorts: &Sorts, x: u32) -> bool
    ensures { Tells (InsideTerm shapes.now.slots sorts.now.sorts state.now x) result }
{
    if 78 <= x {
        return false;
    }
    cycles::is_inside(state, shapes, &sorts.sorts, x as u8)
}

// Whether the node is closed as the entry says.
pub fn closes(state: &State, instance: &Instance, closing: Closing) -> bool
    requires lines_fit { LinesFit instance.now.lines.terms instance.now.lines.others }
    requires many_bound { instance.now.lines.many ≤ 64 }
    ensures { Tells (ClosedBy instance.now.shapes.slots instance.now.sorts.sorts instance.now.sorts.full instance.now.constants.sorts instance.now.constants.values instance.now.lines.kinds instance.now.lines.terms instance.now.lines.others instance.now.lines.many state.now closing) result }
{
    match closing {
        Closing::EmptyLabel(x) => is_empty(state, &instance.sorts, x),
        Closing::BrokenLine(j) => is_broken(state, &instance.lines, j),
        Closing::UnlikeConstants(x) => is_unlike(state, &instance.sorts, &instance.constants, x),
        Closing::InsideItself(x) => is_inside(state, &instance.shapes, &instance.sorts, x),
    }
}
