// Three of the reasons to close a node, each by the lowest term, line or class that it is found at. `specs/Reasons.antt` says what they are.
#![tactic(auto)]

ghost use Rattle.std.specs.Prelude.{◌≡◌, ◌<◌, ◌≤◌};
ghost use Rattle.loops.specs.Lowest.{Finds};
ghost use Rattle.reasons.specs.Reasons.{LinesFit, broken_at, constant_class, empty_at, unlike, unlike_at, unlike_before};

use classes::State;
use constants::Constants;
use labelled::Sorts;
use tables::LiteralTable;

// ---- empty labels

// Whether the label of a term is empty; a number type has no variants, and its label is not looked at.
#[tactic(auto, unfolding(crate::specs::Reasons::empty_at))]
pub fn is_empty(state: &State, sorts: &Sorts, x: u8) -> bool
    requires { x < 78 }
    ensures { result ≡ empty_at sorts.now.sorts sorts.now.full state.now x }
{
    if state.label_of(x) != 0 {
        return false;
    }
    sorts.full_of(x) != 0
}

// The lowest term of variant type with an empty label.
#[tactic(auto, using(labelled::proofs::Covering::listed_finds, crate::proofs::Tests::empty_has_label))]
pub fn empty_label(state: &State, sorts: &Sorts) -> Option<u8>
    ensures { Finds (empty_at sorts.now.sorts sorts.now.full state.now) 78 result }
{
    sorts.lowest_labelled(|x| is_empty(state, sorts, x))
}

// ---- unequal lines

// Whether literal `j` is an unequal line whose two terms are equal.
#[tactic(auto, unfolding(crate::specs::Reasons::broken_at))]
pub fn is_broken(classes: &[u8; 96], lines: &LiteralTable, j: usize) -> bool
    requires j_bound { j < 64 }
    requires lines_fit { LinesFit lines.now.terms lines.now.others }
    ensures { result ≡ broken_at lines.now.kinds lines.now.terms lines.now.others classes.now j }
{
    if lines.kinds[j] != 1 {
        return false;
    }
    classes::class_of(classes, lines.terms[j]) == classes::class_of(classes, lines.others[j])
}

// The lowest unequal line whose two terms are equal.
#[tactic(auto, using(loops::proofs::Loops::finds))]
pub fn broken_line(classes: &[u8; 96], lines: &LiteralTable) -> Option<usize>
    requires many_bound { lines.now.many ≤ 64 }
    requires lines_fit { LinesFit lines.now.terms lines.now.others }
    ensures { Finds (broken_at lines.now.kinds lines.now.terms lines.now.others classes.now) lines.now.many result }
{
    loops::lowest(lines.many, |j| is_broken(classes, lines, j))
}

// ---- constants

fn constant_class(state: &State, k: usize) -> u8
    requires { k < 30 }
    ensures value { result ≡ constant_class state.now.classes k }
    ensures there { result < 96 }
{
    state.class_of(constants::constant_term(k))
}

#[tactic(auto, unfolding(crate::specs::Reasons::unlike))]
fn is_unlike(state: &State, constants: &Constants, k: usize, j: usize) -> bool
    requires { (k < 30) × (j < 30) }
    ensures { result ≡ unlike constants.now.sorts constants.now.values state.now.classes k j }
{
    if constants.sort(j) == 0 {
        return false;
    }
    if constant_class(state, j) != constant_class(state, k) {
        return false;
    }
    constants.value(j) != constants.value(k)
}

// Whether slot k has a constant, and an unlike one before it.
#[tactic(auto, using(loops::proofs::Loops::some_passes), unfolding(crate::specs::Reasons::unlike_before))]
fn is_unlike_before(state: &State, constants: &Constants, k: usize) -> bool
    requires { k < 30 }
    ensures { result ≡ unlike_before constants.now.sorts constants.now.values state.now.classes k }
{
    constants.sort(k) != 0 && loops::any(k, |j| is_unlike(state, constants, k, j))
}

// The lowest class that holds two constants of different value.
#[tactic(auto, using(loops::proofs::Loops::finds_past))]
pub fn unlike_constants(state: &State, constants: &Constants) -> Option<u8>
    ensures { Finds (unlike_at constants.now.sorts constants.now.values state.now.classes 30) 96 result }
{
    let mut found = 96;
    for k in 0..30 {
        if is_unlike_before(state, constants, k) {
            found = found.min(constant_class(state, k));
        }
    }
    if found < 96 { Some(found) } else { None }
}
