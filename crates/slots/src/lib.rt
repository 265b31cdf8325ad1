// The slots of the arrays that the search reads, and what a state says of a shape. `arrays` says what stands in each place.
#![tactic(auto)]

ghost use Rattle.std.specs.Prelude.{◌≡◌, ◌<◌};
ghost use Rattle.guard.specs.Closure.{same_class};
ghost use Rattle.classes.specs.Held.{state};
ghost use Rattle.arrays.specs.Slots.{ReadsFit, ShapesFit, active, kind_at, many_at, others_at, owner_at, part_at, read_bit, read_default, read_key, read_term};

use classes::State;

// Whether two terms are equal by the classes alone, whatever numbers they are.
pub fn same_class(classes: &[u8; 96], labels: &[u16; 96], i: u8, j: u8) -> bool
    requires { (i < 96) × (j < 96) }
    ensures { result ≡ same_class (state classes.now labels.now) i j }
{
    classes::class_of(classes, i) == classes::class_of(classes, j)
}

// ---- shapes

// The kind of the shape in slot `k`, whatever stands there.
pub fn kind(shapes: &[u16; 256], k: usize) -> u16
    requires { k < 30 }
    ensures { result ≡ kind_at shapes.now k }
{
    shapes[8 * k + 1]
}

// The variants that must have gone for it, whatever stands there.
pub fn others(shapes: &[u16; 256], k: usize) -> u16
    requires { k < 30 }
    ensures { result ≡ others_at shapes.now k }
{
    shapes[8 * k + 2]
}

// Terms built by a variant, or so built as soon as their label is that variant alone. Eight places to a slot: the term, its kind, the
// variants that must have gone, how many parts, the parts.
#[derive(Clone, Copy)]
pub struct Shapes {
    pub slots: [u16; 256],
    pub ghost fit: { ShapesFit slots },
}

impl Shapes {
    #[tactic(auto, using(crate::proofs::Fits::slots_fit))]
    pub fn owner(&self, k: usize) -> u8
        requires { k < 30 }
        ensures { result ≡ owner_at self.now.slots k }
    {
        self.slots[8 * k] as u8
    }

    pub fn kind(&self, k: usize) -> u16
        requires { k < 30 }
        ensures { result ≡ kind_at self.now.slots k }
    {
        kind(&self.slots, k)
    }

    pub fn others(&self, k: usize) -> u16
        requires { k < 30 }
        ensures { result ≡ others_at self.now.slots k }
    {
        others(&self.slots, k)
    }

    #[tactic(auto, using(crate::proofs::Fits::slots_fit))]
    pub fn many(&self, k: usize) -> usize
        requires { k < 30 }
        ensures { result ≡ many_at self.now.slots k }
    {
        self.slots[8 * k + 3] as usize
    }

    #[tactic(auto, using(crate::proofs::Fits::slots_fit))]
    pub fn part(&self, k: usize, p: usize) -> u8
        requires { (k < 30) × (p < 3) }
        ensures { result ≡ part_at self.now.slots k p }
    {
        self.slots[8 * k + 4 + p] as u8
    }

    // Whether slot `k` has a shape whose term has no other variant left.
    #[tactic(auto, using(crate::proofs::Fits::slots_fit), unfolding(arrays::specs::Slots::active))]
    pub fn active(&self, state: &State, k: usize) -> bool
        requires { k < 30 }
        ensures { result ≡ active self.now.slots state.now k }
    {
        if self.kind(k) == 0 {
            return false;
        }
        state.label_of(self.owner(k)) & self.others(k) == 0
    }
}

// ---- field reads

// The field that slot `k` reads, whatever stands there.
pub fn read_key(reads: &[u16; 96], k: usize) -> u16
    requires { k < 24 }
    ensures { result ≡ read_key reads.now k }
{
    reads[4 * k + 1]
}

// The bit of the variant that it reads, whatever stands there.
pub fn read_bit(reads: &[u16; 96], k: usize) -> u16
    requires { k < 24 }
    ensures { result ≡ read_bit reads.now k }
{
    reads[4 * k + 2]
}

// Field reads, each in the slot of its row. Four places to a slot: the term read, the field, the variant's bit, the default.
#[derive(Clone, Copy)]
pub struct Reads {
    pub slots: [u16; 96],
    pub ghost fit: { ReadsFit slots },
}

impl Reads {
    #[tactic(auto, using(crate::proofs::Fits::slots_fit))]
    pub fn term(&self, k: usize) -> u8
        requires { k < 24 }
        ensures { result ≡ read_term self.now.slots k }
    {
        self.slots[4 * k] as u8
    }

    pub fn key(&self, k: usize) -> u16
        requires { k < 24 }
        ensures { result ≡ read_key self.now.slots k }
    {
        read_key(&self.slots, k)
    }

    pub fn bit(&self, k: usize) -> u16
        requires { k < 24 }
        ensures { result ≡ read_bit self.now.slots k }
    {
        read_bit(&self.slots, k)
    }

    #[tactic(auto, using(crate::proofs::Fits::slots_fit))]
    pub fn default(&self, k: usize) -> u8
        requires { k < 24 }
        ensures { result ≡ read_default self.now.slots k }
    {
        self.slots[4 * k + 3] as u8
    }
}
