// Bytes in a lent buffer, one behind the other, as far as they fit.
#![tactic(auto)]

ghost use Rattle.std.specs.Prelude.{◌≡◌, ◌≤◌, length, replicate};

// A lent buffer, and the place up to which it is written.
#[derive(Drop)]
pub struct Writer<'a> {
    pub out: &'a mut [u8],
    pub at: usize,
    pub ghost at_in_bounds: { at ≤ length out.now },
}

impl<'a> Writer<'a> {
    ghost use Rattle.bytebuffer.specs.Appends.{Appends};

    // From the start of a buffer on.
    pub fn new(out: &'a mut [u8]) -> Writer<'a>
        ensures same { result.out.ghost_name ≡ out.entry.ghost_name }
        ensures out { result.out.now ≡ out.old }
        ensures at { result.at ≡ 0 }
    {
        Writer { out, at: 0 }
    }

    // Bytes behind those that are written, if they fit.
    pub fn put(&mut self, bytes: &[u8]) -> Option<()>
        ensures { Appends bytes.now self.old result self.new }
    {
        if self.out.len() - self.at < bytes.len() {
            return None;
        }
        let end = self.at + bytes.len();
        self.out[self.at..end].copy_from_slice(bytes);
        self.at = end;
        Some(())
    }
}

// Sets every byte to 0.
pub fn clear(out: &mut [u8])
    ensures { out.new ≡ replicate (length out.old) 0 }
{
    out.fill(0);
}
