// What each row reads, and which slots hold constants, from the columns of a guard's tables. `specs/Reads.antt` says what
// each place is.
#![tactic(auto)]

ghost use Rattle.std.specs.Prelude.{◌≡◌, ◌+◌, ◌*◌, ◌≤◌, ◌<◌};
ghost use Rattle.readcolumn.specs.Reads.{constant_entry, four_places, read_entry, row_read};
ghost use Rattle.columns.specs.Entries.{filled, written};

// A read, in the four places from `at` on.
#[tactic(auto, using(crate::proofs::ReadLaws::four_written))]
fn write_places(column: &mut [u16; 96], at: usize, a: u16, key: u16, bit: u16, absent: u16)
    requires { at + 4 ≤ 96 }
    ensures { column.new ≡ written 4 column.old at (four_places a key bit absent) }
{
    column[at] = a;
    column[at + 1] = key;
    column[at + 2] = bit;
    column[at + 3] = absent;
}

// What row `i`, a field read, reads.
#[tactic(auto, using(crate::proofs::ReadLaws::read_written))]
fn write_read(column: &mut [u16; 96], types: &[u8], variants: &[u8], parts: &[u8], i: u16)
    requires { i < 24 }
    ensures { column.new ≡ written 4 column.old (4 * i) (row_read types.now variants.now parts.now i) }
{
    let a = columns::byte(parts, 3 * i);
    let t = columns::byte(types, a);
    let v = columns::byte(variants, i);
    let p = columns::byte(parts, 3 * i + 1);
    let own = columns::byte(types, i);
    let bit = columns::bit_of(v);
    write_places(
        column,
        4 * i as usize,
        a,
        1 + 64 * t + 4 * v + p,
        bit,
        72 + own,
    );
}

// Only field reads are written.
#[tactic(auto, using(crate::proofs::ReadLaws::reads_filled))]
pub fn read_entries(
    kinds: &[u8; 24],
    types: &[u8; 24],
    variants: &[u8; 24],
    parts: &[u8; 72],
) -> [u16; 96]
    ensures { result ≡ filled 96 (read_entry kinds.now types.now variants.now parts.now) 96 }
{
    let mut column = [0u16; 96];
    for i in 0..24 {
        if columns::byte(kinds, i) == 3 {
            write_read(&mut column, types, variants, parts, i);
        }
    }
    column
}

#[tactic(auto, unfolding(crate::specs::Reads::constant_entry))]
fn constant_entry(count: usize, kinds: &[u8], types: &[u8], counts: &[u8], i: u16) -> u8
    ensures { result ≡ constant_entry count kinds.now types.now counts.now i }
{
    if i < 24 {
        let kind = columns::byte(kinds, i);
        let sort = columns::byte(types, i);
        return columns::plus_one_if(kind == 1, sort);
    }
    let t = i - 24;
    let number = columns::plus_one_if((t as usize) < count, t);
    let many = columns::byte(counts, t);
    columns::choose_byte(many == 0, number, 0)
}

#[tactic(auto, using(crate::proofs::ReadLaws::constants_filled))]
pub fn constant_entries(
    count: usize,
    kinds: &[u8; 24],
    types: &[u8; 24],
    counts: &[u8; 6],
) -> [u8; 32]
    ensures { result ≡ filled 32 (constant_entry count kinds.now types.now counts.now) 32 }
{
    let mut column = [0u8; 32];
    for i in 0..32 {
        column[i as usize] = constant_entry(count, kinds, types, counts, i);
    }
    column
}
