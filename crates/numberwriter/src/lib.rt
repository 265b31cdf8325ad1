// A number in seven-bit groups, low group first, behind what a writer has written.
#![tactic(auto)]

ghost use Rattle.guard.specs.Number.{width64};
ghost use Rattle.encoding.specs.Encoding.{encoded_of};
ghost use Rattle.bytebuffer.specs.Appends.{Appends};

use bytebuffer::Writer;

// The bytes of a number of 64 bits, if they fit: up to ten, as a constant's value may have. Counts and names have the same bytes as they have among
// numbers of 32 bits.
#[tactic(auto, using(crate::proofs::Midway::begin, crate::proofs::Midway::further))]
pub fn put_number(out: &mut Writer, n: u64) -> Option<()>
    ensures { Appends (encoded_of width64 n) out.old result out.new }
{
    let mut rest = n;
    while 128 <= rest {
        out.put(&[(128 + rest % 128) as u8])?;
        rest /= 128;
    }
    out.put(&[rest as u8])
}
