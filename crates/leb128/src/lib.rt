// The bytes of a number of the guard file, which are those of an unsigned LEB128 of the DWARF standard: groups of seven bits, the
// low group first, with bit 80 in all bytes but the last. Here a number has at most five bytes, has the fewest, and is at most
// 4,294,967,295. Only the byte count knows of longer ones, for request #104.
#![tactic(auto)]

ghost use Rattle.std.specs.Prelude.{◌≡◌, ◌<◌, ◌≤◌, ◌%◌, drop, get_or, length};
ghost use Rattle.guard.specs.Number.{value_of_groups, well_formed, width32};
ghost use Rattle.leb128.specs.Count.{Counted};

// How many bytes the number at `at` has: up to and with the first without bit 80, and at most `most`. 0 if the bytes end before.
#[tactic(auto, using(crate::proofs::Count::counting_steps))]
pub fn byte_count(bytes: &[u8], at: usize, most: usize) -> usize
    requires { (0 < most) × (most ≤ 10) }
    ensures { Counted most (drop at bytes.now) result }
{
    for i in 0..most {
        let next = at + i;
        if bytes.len() <= next {
            return 0;
        }
        if bytes[next] < 128 {
            return i + 1;
        }
    }
    // A byte with bit 80 in the last place is the end too.
    most
}

// The low-order seven bits of byte `i`.
fn group(number: &[u8], i: usize) -> u64
    requires { i < length number.now }
    ensures { result ≡ get_or number.now i 0 % 128 }
{
    (number[i] % 128) as u64
}

// The value of a number's bytes, a case for each count. The weights of the groups are the powers of 128.
pub fn value_of(number: &[u8]) -> u64
    requires { (0 < length number.now) × (length number.now ≤ 5) }
    ensures { result ≡ value_of_groups number.now }
{
    let count = number.len();
    match count {
        1 => group(number, 0),
        2 => group(number, 0) + group(number, 1) * 128,
        3 => group(number, 0) + group(number, 1) * 128 + group(number, 2) * 16384,
        4 => {
            group(number, 0)
                + group(number, 1) * 128
                + group(number, 2) * 16384
                + group(number, 3) * 2097152
        }
        _ => {
            group(number, 0)
                + group(number, 1) * 128
                + group(number, 2) * 16384
                + group(number, 3) * 2097152
                + group(number, 4) * 268435456
        }
    }
}

// Whether the bytes are in the form above. A fifth byte may have bit 80, and five groups have 35 bits; a last byte of 00 adds
// nothing, so after other bytes the number does not have the fewest.
#[tactic(auto, using(crate::proofs::Form::last_is))]
pub fn well_formed(number: &[u8], value: u64) -> bool
    requires { (0 < length number.now) × (value ≡ value_of_groups number.now) }
    ensures { result ≡ well_formed width32 number.now }
{
    let count = number.len();
    let last = number[count - 1];
    last < 128 && value <= 4294967295 && (count <= 1 || last != 0)
}
