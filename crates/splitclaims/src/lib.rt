// Whether a node can be split as an entry of a record says. The numbers of an entry come from a record, and may be any.
#![tactic(auto)]

ghost use Rattle.std.specs.Prelude.{◌≡◌};
ghost use Rattle.splitclaims.specs.SplitClaims.{TermOf, splits_by};

use classes::State;

// The term of this number, if there is one.
#[tactic(auto, unfolding(crate::specs::SplitClaims::is_term))]
pub fn term_of(sorts: &[u8; 96], x: u32) -> Option<u8>
    ensures { TermOf sorts.now x result }
{
    if x < 78 && sorts[x as usize] != 0 {
        Some(x as u8)
    } else {
        None
    }
}

// Whether there is a term of this number, and its label holds the variant and another one.
pub fn splits(state: &State, sorts: &[u8; 96], x: u32, v: u32) -> bool
    ensures { result ≡ splits_by sorts.now state.now x v }
{
    let Some(term) = term_of(sorts, x) else {
        return false;
    };
    if 16 <= v {
        return false;
    }
    let label = state.label_of(term);
    if labels::lacks(label, v) {
        return false;
    }
    label != labels::only(v)
}
