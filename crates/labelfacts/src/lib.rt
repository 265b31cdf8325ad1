// The labels that terms have before any rule: all variants of their type, or the one of a built row or a default.
#![tactic(auto)]

ghost use Rattle.std.specs.Prelude.{◌≡◌, ◌^◌, ◌<◌};
ghost use mathlib.Core.List.{foldl};
ghost use Rattle.guard.specs.Closure.{add};
ghost use Rattle.arrays.specs.Slots.{kind_at};
ghost use Rattle.labelfacts.specs.Labels.{all_variants_at, all_variants_by, one_variant_at, one_variant_by, variant_at};

use classes::State;
use labelled::Sorts;
use slots::Shapes;

// A term has at first all variants of its type.
#[tactic(auto, using(labelled::proofs::Listing::sort_small), unfolding(crate::specs::Labels::all_variants_at))]
fn label_term(state: &mut State, sorts: &Sorts, x: u8)
    requires { x < 78 }
    ensures { state.new ≡ foldl add state.old (all_variants_at sorts.now.sorts sorts.now.full x) }
{
    if sorts.sorts[x as usize] != 0 {
        state.restrict(x, sorts.full_of(x));
    }
}

#[tactic(auto, using(facts::proofs::Adding::next_slot), unfolding(crate::specs::Labels::all_variants_by))]
pub fn label_terms(state: &mut State, sorts: &Sorts)
    ensures { state.new ≡ foldl add state.old (all_variants_by sorts.now.sorts sorts.now.full) }
{
    for x in 0..78 {
        label_term(state, sorts, x);
    }
}

// The label of a shape's variant.
fn variant_label(shapes: &Shapes, k: usize) -> u16
    requires { (k < 30) × ¬ (kind_at shapes.now.slots k ≡ 0) }
    ensures { result ≡ 2 ^ variant_at shapes.now.slots k }
{
    labels::only(((shapes.kind(k) - 1) % 16) as u32)
}

// A built row or a default is of its variant. A field read has the others as its mask, and may be of any.
#[tactic(auto, unfolding(crate::specs::Labels::one_variant_at))]
fn label_build(state: &mut State, shapes: &Shapes, k: usize)
    requires { k < 30 }
    ensures { state.new ≡ foldl add state.old (one_variant_at shapes.now.slots k) }
{
    if shapes.kind(k) == 0 {
        return;
    }
    if shapes.others(k) != 0 {
        return;
    }
    state.restrict(shapes.owner(k), variant_label(shapes, k));
}

#[tactic(auto, using(facts::proofs::Adding::next_slot), unfolding(crate::specs::Labels::one_variant_by))]
pub fn label_builds(state: &mut State, shapes: &Shapes)
    ensures { state.new ≡ foldl add state.old (one_variant_by shapes.now.slots) }
{
    for slot in 0..30 {
        label_build(state, shapes, slot);
    }
}
