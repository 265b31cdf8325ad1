// The record of a closed search, node by node. `specs/Writes.antt` says what is written.
#![tactic(auto)]

ghost use Rattle.std.specs.Prelude.{◌≤◌};
ghost use Rattle.reasons.specs.Reasons.{LinesFit};
ghost use Rattle.nodewriter.specs.Writes.{Writes};

use bytebuffer::Writer;
use classes::State;
use instance::Instance;
use slots::Reads;

// A node from the state that it begins with, behind what is written: what closes it; or its split, and then what its children write,
// "is" before "isn't". An open node has no entry.
pub fn write_node(
    state: &mut State,
    instance: &Instance,
    reads: &Reads,
    out: &mut Writer,
) -> Option<()>
    requires lines_fit { LinesFit instance.now.lines.terms instance.now.lines.others }
    requires few_lines { instance.now.lines.many ≤ 64 }
    ensures { Writes instance.now reads.now.slots state.old out.old result out.new }
{
    saturation::saturate_fully(state, &instance.shapes, reads, &instance.sorts);
    state.held();
    if let Some(c) = closings::closing_of(state, instance) {
        let (reason, number) = c.numbers();
        return out.put(&[reason, number as u8]);
    }
    let Some(d) = splits::split(state, reads, &instance.sorts) else {
        return Some(());
    };
    out.put(&[4, d.term, d.variant])?;
    let bit = labels::only(d.variant as u32);
    let mut own = *state;
    own.restrict(d.term, bit);
    write_node(&mut own, instance, reads, out)?;
    state.restrict(d.term, 65535 - bit);
    write_node(state, instance, reads, out)
}
