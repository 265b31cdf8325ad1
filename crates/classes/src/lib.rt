// Equivalence classes of terms, each named by its lowest member, with a label for each class: the state of a node, with one fact more.
// There is room for 18 terms more than the 78 of today.
#![tactic(auto)]

ghost use Rattle.std.specs.Prelude.{◌≡◌, ℕ, not, ◌<◌, min, max, length, get_or, set};
ghost use Rattle.std.specs.Int.Bits.{bit_and};
ghost use Rattle.guard.specs.Closure.{Fact.same, Fact.within, add, class_of, holds, label_of, rename, same_class};
ghost use Rattle.guard.proofs.ClosureEnds.{first};
ghost use Rattle.classes.specs.Held.{Held, state};

use std::marker::Model;

// The class of each term and the label of each class. A contract sees the state of the definitions; that each class is a term, and each
// label a mask of 16 bits, is true of every value, and no clause says it.
#[derive(Clone, Copy)]
pub struct State {
    classes: [u8; 96],
    labels: [u16; 96],
}

impl Model for State {
    ghost use Rattle.guard.specs.Closure as closure;

    ghost Value = { closure.State };

    ghost use Rattle.classes.specs.Held.{Kept};

    ghost view = { λ s. record { classes = s.classes; labels = s.labels } };

    ghost inverse = { λ s. record { classes = s.classes; labels = s.labels } };

    ghost invariant = { λ s. Kept s.classes s.labels };
}

// The class of a term by the classes alone, whatever numbers they are.
pub fn class_of(classes: &[u8; 96], i: u8) -> u8
    requires { i < 96 }
    ensures { result ≡ get_or classes.now i 0 }
{
    classes[i as usize]
}

// Class `high` becomes `low`.
#[tactic(auto, using(crate::proofs::ClassLaws::next_kept, crate::proofs::ClassLaws::next_renamed, crate::proofs::ClassLaws::rename_all))]
fn rename(classes: &mut [u8; 96], low: u8, high: u8)
    requires { length classes.old ≡ 96 }
    ensures { classes.new ≡ rename low high classes.old }
{
    // Every class is stored, which the compiler does for several at once.
    for class in classes {
        *class = if *class == high { low } else { *class };
    }
}

// Two classes become one under the lower name, whose label is what both had.
fn merge(classes: &mut [u8; 96], labels: &mut [u16; 96], c: u8, d: u8)
    requires { (c < 96) × (d < 96) × (length classes.old ≡ 96) }
    ensures classes_after { classes.new ≡ rename (min c d) (max c d) classes.old }
    ensures labels_after { labels.new ≡ set labels.old (min c d) (bit_and (get_or labels.old c 0) (get_or labels.old d 0)) }
{
    let mut low = c;
    let mut high = d;
    if d < c {
        low = d;
        high = c;
    }
    labels[low as usize] = labels[c as usize] & labels[d as usize];
    rename(classes, low, high);
}

impl State {
    // No code: where a caller's proof needs it, it learns here that each class is a term, and each label a mask of 16 bits.
    pub fn held(&self)
        ensures held { Held self.now.classes }
        ensures long { length self.now.labels ≡ 96 }
        ensures small { (c : ℕ) → get_or self.now.labels c 0 < 65536 }
    {
        let _ = &self.classes;
    }

    // A state from its two arrays.
    pub fn new(classes: [u8; 96], labels: [u16; 96]) -> State
        requires { Held classes }
        ensures { result ≡ state classes labels }
    {
        State { classes, labels }
    }

    // The class of each term.
    pub fn classes(&self) -> &[u8; 96]
        ensures { result.now ≡ self.now.classes }
    {
        &self.classes
    }

    // Each term in a class of its own, its label not cut down yet.
    pub fn first() -> State
        ensures { result ≡ first 96 }
    {
        let mut classes = [0u8; 96];
        for x in 0..96 {
            classes[x] = x as u8;
        }
        State {
            classes,
            labels: [65535; 96],
        }
    }

    // The class of a term.
    #[tactic(auto, using(crate::proofs::ClassLaws::class_there))]
    pub fn class_of(&self, x: u8) -> u8
        requires { x < 96 }
        ensures value { result ≡ class_of self.now x }
        ensures there { result < 96 }
    {
        self.classes[x as usize]
    }

    pub fn same_class(&self, x: u8, y: u8) -> bool
        requires { (x < 96) × (y < 96) }
        ensures { result ≡ same_class self.now x y }
    {
        self.classes[x as usize] == self.classes[y as usize]
    }

    // The label of a term, which is that of its class.
    #[tactic(auto, using(crate::proofs::ClassLaws::class_there))]
    pub fn label_of(&self, x: u8) -> u16
        requires { x < 96 }
        ensures { result ≡ label_of self.now x }
    {
        self.labels[self.classes[x as usize] as usize]
    }

    // The label that stands at a class.
    pub fn class_label(&self, c: u8) -> u16
        requires { c < 96 }
        ensures { result ≡ get_or self.now.labels c 0 }
    {
        self.labels[c as usize]
    }

    // Two terms become equal; true if they were not.
    #[tactic(auto, using(crate::proofs::ClassLaws::same_new, crate::proofs::ClassLaws::same_already, crate::proofs::ClassLaws::same_fails, crate::proofs::ClassLaws::same_holds))]
    pub fn unite(&mut self, x: u8, y: u8) -> bool
        requires { (x < 96) × (y < 96) }
        ensures after { self.new ≡ add self.old (same x y) }
        ensures value { result ≡ not (holds self.old (same x y)) }
    {
        let c = self.classes[x as usize];
        let d = self.classes[y as usize];
        if c == d {
            return false;
        }
        merge(&mut self.classes, &mut self.labels, c, d);
        true
    }

    // The label of a term is cut down to a mask; true if it was not inside it.
    #[tactic(auto, using(crate::proofs::ClassLaws::class_there, crate::proofs::ClassLaws::cut_kept))]
    pub fn restrict(&mut self, x: u8, mask: u16) -> bool
        requires { x < 96 }
        ensures after { self.new ≡ add self.old (within x mask) }
        ensures value { result ≡ not (holds self.old (within x mask)) }
    {
        let c = self.classes[x as usize] as usize;
        let old = self.labels[c];
        let cut = old & mask;
        self.labels[c] = cut;
        cut != old
    }
}
