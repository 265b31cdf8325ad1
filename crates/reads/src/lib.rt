// Field reads: of a variant that is out, and of one field of equal terms.
#![tactic(auto)]

ghost use Rattle.std.specs.Prelude.{◌<◌};
ghost use Rattle.passes.specs.Pass.{Pass};
ghost use Rattle.reads.specs.Due.{default_due, defaults_due, read_due, reads_due, reads_meet};

use classes::State;
use slots::Reads;

// ---- absent variants

// A read of a variant that the label lacks is the default.
fn join_default(state: &mut State, reads: &Reads, k: usize) -> bool
    requires { k < 24 }
    ensures { Pass (λ s. default_due reads.now.slots s k) state.old state.new result }
{
    if reads.key(k) == 0 {
        return false;
    }
    if state.label_of(reads.term(k)) & reads.bit(k) != 0 {
        return false;
    }
    state.unite(k as u8, reads.default(k))
}

pub fn pass_defaults(state: &mut State, reads: &Reads) -> bool
    ensures { Pass (defaults_due reads.now.slots) state.old state.new result }
{
    let mut changed = false;
    for k in 0..24 {
        // Not `changed |= ..`: the compiler then carries it through each turn, and the loop is three times as long.
        if join_default(state, reads, k) {
            changed = true;
        }
    }
    changed
}

// ---- two reads

// Reads of the same field of equal terms become equal.
fn meet_reads(state: &mut State, reads: &Reads, k: usize, i: usize) -> bool
    requires { (k < 24) × (i < 24) }
    ensures { Pass (λ s. reads_meet reads.now.slots s k i) state.old state.new result }
{
    if reads.key(k) == 0 {
        return false;
    }
    if reads.key(k) != reads.key(i) {
        return false;
    }
    if !state.same_class(reads.term(i), reads.term(k)) {
        return false;
    }
    state.unite(i as u8, k as u8)
}

// A read and those before it.
fn pass_read(state: &mut State, reads: &Reads, k: usize) -> bool
    requires { k < 24 }
    ensures { Pass (λ s. read_due reads.now.slots s k) state.old state.new result }
{
    let mut changed = false;
    for i in 0..k {
        changed |= meet_reads(state, reads, k, i);
    }
    changed
}

pub fn pass_reads(state: &mut State, reads: &Reads) -> bool
    ensures { Pass (reads_due reads.now.slots) state.old state.new result }
{
    let mut changed = false;
    for k in 0..24 {
        changed |= pass_read(state, reads, k);
    }
    changed
}
