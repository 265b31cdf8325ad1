// A node of a record and all below it, read against the state that it begins with. `specs/Nodes.antt` says what it gives.
#![tactic(auto)]

ghost use Rattle.std.specs.Prelude.{◌≤◌};
ghost use Rattle.reasons.specs.Reasons.{LinesFit};
ghost use Rattle.nodechecker.specs.Nodes.{Checks};

use classes::State;
use entryreader::Entry;
use guard::Question;
use instance::Instance;
use slots::Reads;

// A node from the state that it begins with, and the record from `at` on: an entry whose claim holds at the node's closure, and
// after a split both children, "is" before "isn't": the cursor after them, or the question that got the first no.
pub fn check_node(
    state: &mut State,
    instance: &Instance,
    reads: &Reads,
    bytes: &[u8],
    at: usize,
) -> Result<usize, Question>
    requires lines_fit { LinesFit instance.now.lines.terms instance.now.lines.others }
    requires few_lines { instance.now.lines.many ≤ 64 }
    ensures { Checks instance.now reads.now.slots bytes.now at state.old result }
{
    if bytes.len() <= at {
        return Err(Question::RecordEnd);
    }
    let e = entryreader::read_entry(bytes, at)?;
    saturation::saturate_fully(state, &instance.shapes, reads, &instance.sorts);
    state.held();
    match e.value {
        Entry::Closing(closing) => {
            if !claims::closes(state, instance, closing) {
                return Err(Question::FalseEntry);
            }
            Ok(e.at)
        }
        Entry::Split { term, variant } => {
            if !splitclaims::splits(state, &instance.sorts.sorts, term, variant) {
                return Err(Question::FalseEntry);
            }
            let x = term as u8;
            let bit = labels::only(variant);
            let mut own = *state;
            own.restrict(x, bit);
            let next = check_node(&mut own, instance, reads, bytes, e.at)?;
            state.restrict(x, 65535 - bit);
            check_node(state, instance, reads, bytes, next)
        }
    }
}
