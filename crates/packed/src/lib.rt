// Packed guard files from standard input, one after the other: of each a 2-byte length, the file, and a 4-byte budget, low
// byte first. A length above the buffer's ends them, as 65535 does after the last file. No contract can say what is read; these
// say what is made of it, and what is left in the buffer.
#![tactic(auto)]

ghost use Rattle.std.specs.Prelude.{◌≡◌, ◌+◌, ◌*◌, ◌<◌, length};

fn four_bytes(a: u8, b: u8, c: u8, d: u8) -> u32
    ensures { result ≡ a + 256 * b + 65536 * c + 16777216 * d }
{
    u32::from_le_bytes([a, b, c, d])
}

// The length of the next file; 65535 after the last, or where the input ends.
fn next_length() -> usize {
    let mut two = [0u8; 2];
    let n = io::read_full(0, &mut two);
    if n < 2 {
        return 65535;
    }
    usize::from(u16::from_le_bytes(two))
}

// Reads the next file to the start of the buffer, and answers its length; or a number above the buffer's length, if there
// is none or it is too long, and then the buffer is as it was.
pub fn next_file(buffer: &mut [u8]) -> usize
    ensures { length buffer.old < result → buffer.new ≡ buffer.old }
{
    let length = next_length();
    if buffer.len() < length {
        return length;
    }
    io::read_full(0, &mut buffer[..length])
}

// Reads the budget that follows a file.
pub fn next_budget() -> u32 {
    let mut four = [0u8; 4];
    io::read_full(0, &mut four);
    four_bytes(four[0], four[1], four[2], four[3])
}
