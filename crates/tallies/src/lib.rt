// What a search has left of its budget and what it has counted, visit by visit, and how it ends. `specs/Outcome.antt` says what each is.
#![tactic(auto)]

ghost use Rattle.std.specs.Prelude.{◌≡◌, ◌<◌, ◌≤◌};
ghost use Rattle.guard.specs.Search.{Visit.leaf, Visit.split};
ghost use Rattle.tallies.specs.Outcome.{after_one, is_closed_outcome, kind_by, tally_of, total};

// The nodes that are left of a budget, and the splits of either kind that were made.
#[derive(Clone, Copy)]
pub struct Tally {
    pub left: u32,
    pub first: u32,
    pub second: u32,
}

// How a search ends.
#[derive(Clone, Copy)]
pub enum Outcome {
    Open(Tally),
    Closed(Tally),
    Spent(Tally),
}

pub fn is_closed(o: Outcome) -> bool
    ensures { result ≡ is_closed_outcome o }
{
    matches!(o, Outcome::Closed(_))
}

pub fn tally_of(o: Outcome) -> Tally
    ensures { result ≡ tally_of o }
{
    match o {
        Outcome::Open(t) | Outcome::Closed(t) | Outcome::Spent(t) => t,
    }
}

// With a node more that is a leaf.
pub fn with_leaf(t: Tally) -> Tally
    requires { 0 < t.left }
    ensures { result ≡ after_one leaf t }
{
    Tally {
        left: t.left - 1,
        first: t.first,
        second: t.second,
    }
}

// With a node more that splits.
pub fn with_split(t: Tally, first: bool) -> Tally
    requires left_nonzero { 0 < t.left }
    requires t_bound { total t ≤ 4294967295 }
    ensures { result ≡ after_one (split (kind_by first)) t }
{
    let left = t.left - 1;
    if first {
        return Tally {
            left,
            first: t.first + 1,
            second: t.second,
        };
    }
    Tally {
        left,
        first: t.first,
        second: t.second + 1,
    }
}
