// The split of a node. `specs/Choice.antt` says what it is.
#![tactic(auto)]

ghost use Rattle.std.specs.Prelude.{◌≡◌, ◌<◌};
ghost use Rattle.std.proofs.Math.Option.{some};
ghost use Rattle.loops.specs.Lowest.{Finds};
ghost use Rattle.splits.specs.Choice.{choice_of, first_by, lowest_in, read_splits, split_by, term_splits};

use classes::State;
use labelled::Sorts;
use slots::Reads;

// A decision to split on: whether it is of the first kind, its term and its variant.
#[derive(Clone, Copy)]
pub struct Choice {
    pub first: bool,
    pub term: u8,
    pub variant: u8,
}

// ---- the two kinds

#[tactic(auto, using(slots::proofs::Fits::slots_fit), unfolding(crate::specs::Choice::read_splits))]
fn read_splits(state: &State, reads: &Reads, k: usize) -> bool
    requires { k < 24 }
    ensures { result ≡ read_splits reads.now.slots state.now k }
{
    if reads.key(k) == 0 {
        return false;
    }
    let label = state.label_of(reads.term(k));
    let bit = reads.bit(k);
    if label & bit == 0 {
        return false;
    }
    label != bit
}

#[tactic(auto, unfolding(crate::specs::Choice::term_splits))]
fn term_splits(state: &State, sorts: &Sorts, x: u8) -> bool
    requires { x < 78 }
    ensures { result ≡ term_splits sorts.now.sorts sorts.now.fieldless state.now x }
{
    let label = state.label_of(x);
    if label & sorts.fieldless_of(x) != label {
        return false;
    }
    labels::size(label) >= 2
}

// The lowest field row whose read term's label holds its variant and another one.
#[tactic(auto, using(loops::proofs::Loops::finds))]
fn first_kind(state: &State, reads: &Reads) -> Option<usize>
    ensures { Finds (read_splits reads.now.slots state.now) 24 result }
{
    loops::lowest(24, |k| read_splits(state, reads, k))
}

// The lowest term whose label holds two or more variants, all fieldless.
#[tactic(auto, using(labelled::proofs::Covering::listed_finds, crate::proofs::Tests::splits_has_label))]
fn second_kind(state: &State, sorts: &Sorts) -> Option<u8>
    ensures { Finds (term_splits sorts.now.sorts sorts.now.fieldless state.now) 78 result }
{
    sorts.lowest_labelled(|x| term_splits(state, sorts, x))
}

// ---- the split

// The decision on a term's lowest variant, of those in a label.
#[tactic(auto, using(slots::proofs::OnlyOne::lowest_most))]
fn decide(first: bool, term: u8, label: u16) -> Option<Choice>
    ensures { result ≡ choice_of first (some (record { term = term; variant = lowest_in label })) }
{
    Some(Choice {
        first,
        term,
        variant: labels::lowest(label) as u8,
    })
}

// What the node splits on: the first kind before the second.
#[tactic(auto, unfolding(crate::specs::Choice::split_by, crate::specs::Choice::first_by))]
pub fn split(state: &State, reads: &Reads, sorts: &Sorts) -> Option<Choice>
    ensures { result ≡ choice_of (first_by reads.now.slots state.now) (split_by reads.now.slots sorts.now.sorts sorts.now.fieldless state.now) }
{
    if let Some(k) = first_kind(state, reads) {
        return decide(true, reads.term(k), reads.bit(k));
    }
    let x = second_kind(state, sorts)?;
    decide(false, x, state.label_of(x))
}
