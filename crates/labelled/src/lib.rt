// The types of the terms, and the terms that have a label, in rising order: loops over labels leave all others out.
#![tactic(auto)]

ghost use Rattle.std.specs.Prelude.{◌≡◌, ◌<◌, length};
ghost use Rattle.arrays.specs.Slots.{SortsFit, fieldless_at, only_is};
ghost use Rattle.labelled.specs.Covers.{Covers, FirstListed, Lists, has_label, has_mask};

use classes::State;

// The type of each term plus one, or 0 where there is no such term. By type plus one: all variants as a mask, and the fieldless ones.
#[derive(Clone, Copy)]
pub struct Sorts {
    pub sorts: [u8; 96],
    pub full: [u16; 8],
    pub fieldless: [u16; 8],
    // the terms that have a label, and how many they are
    listed: [u8; 96],
    count: usize,
    pub ghost fit: { SortsFit sorts },
    ghost room: { length listed ≡ 96 },
    ghost lists: { Lists (has_label sorts full fieldless) 78 listed count },
}

// Whether a term's type has variants.
#[tactic(auto, using(crate::proofs::Listing::sort_small), unfolding(crate::specs::Covers::has_label, crate::specs::Covers::has_mask))]
fn has_label(sorts: &[u8; 96], full: &[u16; 8], fieldless: &[u16; 8], x: usize) -> bool
    requires x_bound { x < 96 }
    requires sorts_fit { SortsFit sorts.now }
    ensures { result ≡ has_label sorts.now full.now fieldless.now x }
{
    let sort = sorts[x] as usize;
    full[sort] != 0 || fieldless[sort] != 0
}

impl Sorts {
    pub fn new(sorts: [u8; 96], full: [u16; 8], fieldless: [u16; 8]) -> Sorts
        requires { SortsFit sorts }
        ensures sorts_kept { result.sorts ≡ sorts }
        ensures full_kept { result.full ≡ full }
        ensures fieldless_kept { result.fieldless ≡ fieldless }
    {
        let mut listed = [0u8; 96];
        let mut count: usize = 0;
        for x in 0..78 {
            if has_label(&sorts, &full, &fieldless, x) {
                listed[count] = x as u8;
                count += 1;
            }
        }
        Sorts {
            sorts,
            full,
            fieldless,
            listed,
            count,
        }
    }

    // The terms that have a label: no term with variants is left out, nor one with fieldless ones.
    pub fn labelled(&self) -> &[u8]
        ensures lists { Lists (has_label self.now.sorts self.now.full self.now.fieldless) 78 result.now (length result.now) }
        ensures full { Covers (has_mask self.now.sorts self.now.full) 78 result.now (length result.now) }
        ensures fieldless { Covers (has_mask self.now.sorts self.now.fieldless) 78 result.now (length result.now) }
    {
        &self.listed[..self.count]
    }

    // The lowest term that passes, of those that have a label.
    pub fn lowest_labelled<F: Fn(u8) -> bool>(&self, passes: F) -> Option<u8>
        requires { (x : _) → x < 78 → F.pre passes x }
        ensures { FirstListed (F.post passes) (has_label self.now.sorts self.now.full self.now.fieldless) 78 result }
    {
        for &x in self.labelled() {
            if passes(x) {
                return Some(x);
            }
        }
        None
    }

    // All variants of a term's type.
    #[tactic(auto, using(crate::proofs::Listing::sort_small))]
    pub fn full_of(&self, x: u8) -> u16
        requires { x < 96 }
        ensures { result ≡ fieldless_at self.now.sorts self.now.full x }
    {
        self.full[self.sorts[x as usize] as usize]
    }

    // The fieldless variants of a term's type.
    #[tactic(auto, using(crate::proofs::Listing::sort_small))]
    pub fn fieldless_of(&self, x: u8) -> u16
        requires { x < 96 }
        ensures { result ≡ fieldless_at self.now.sorts self.now.fieldless x }
    {
        self.fieldless[self.sorts[x as usize] as usize]
    }

    // A term is of one fieldless variant alone.
    #[tactic(auto, unfolding(arrays::specs::Slots::only_is))]
    pub fn only_is(&self, state: &State, x: u8, v: u32) -> bool
        requires { (x < 96) × (v < 16) }
        ensures { result ≡ only_is self.now.sorts self.now.fieldless state.now x v }
    {
        if labels::lacks(self.fieldless_of(x), v) {
            return false;
        }
        labels::is_alone(state.label_of(x), v)
    }
}
