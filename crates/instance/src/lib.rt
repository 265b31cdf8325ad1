// A guard as the search looks at it: one value, so that a function that visits a node takes all of it at once.
#![tactic(auto)]

use constants::Constants;
use labelled::Sorts;
use slots::Shapes;
use tables::LiteralTable;

// The shapes of a guard, the types of its terms, its constants and its lines. What it reads stands by itself, in `slots::Reads`, since
// no reason to close a node looks at it.
#[derive(Clone, Copy)]
pub struct Instance {
    pub shapes: Shapes,
    pub sorts: Sorts,
    pub constants: Constants,
    pub lines: LiteralTable,
}
