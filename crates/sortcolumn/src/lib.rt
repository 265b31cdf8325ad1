// The type of each term, and the variants of each type as masks, from the columns of a guard's tables. `specs/Sorts.antt`
// says what each place is.
#![tactic(auto)]

ghost use Rattle.std.specs.Prelude.{◌≡◌, ◌≤◌, ◌<◌};
ghost use Rattle.sortcolumn.specs.Sorts.{fieldless_bit, fieldless_entry, fieldless_mask, full_entry, sort_entry};
ghost use Rattle.columns.specs.Entries.{filled};

// Rows, siblings, defaults; nothing stands past the last default.
pub fn sort_entries(many: usize, count: usize, types: &[u8; 24], siblings: &[u8; 48]) -> [u8; 96]
    ensures { result ≡ filled 96 (sort_entry many count types.now siblings.now) 96 }
{
    let mut column = [0u8; 96];
    for x in 0..24 {
        let sort = columns::byte(types, x);
        column[x as usize] = columns::plus_one_if((x as usize) < many, sort);
    }
    column[24..72].copy_from_slice(siblings);
    for t in 0..6 {
        column[72 + t as usize] = columns::plus_one_if((t as usize) < count, t);
    }
    column
}

#[tactic(auto, unfolding(crate::specs::Sorts::full_entry))]
fn full_entry(counts: &[u8], y: u16) -> u16
    ensures { result ≡ full_entry counts.now y }
{
    let n = columns::byte(counts, y.saturating_sub(1));
    let all = columns::ones_of(n);
    columns::choose(y == 0, 0, all)
}

#[tactic(auto, using(crate::proofs::SortLaws::column_filled))]
pub fn full_entries(counts: &[u8; 6]) -> [u16; 8]
    ensures { result ≡ filled 8 (full_entry counts.now) 8 }
{
    let mut column = [0u16; 8];
    for y in 0..8 {
        column[y as usize] = full_entry(counts, y);
    }
    column
}

// Variant `v` of a type whose first one has number `start`, where it is fieldless.
#[tactic(auto, unfolding(crate::specs::Sorts::fieldless_bit))]
fn fieldless_bit(arities: &[u8], start: u16, v: u16) -> u16
    requires start_bound { start < 256 }
    requires v_bound { v < 16 }
    ensures { result ≡ fieldless_bit arities.now start v }
{
    let arity = columns::byte(arities, start + v);
    let bit = columns::bit_of(v);
    columns::choose(arity == 0, bit, 0)
}

// The fieldless ones of the first `n` variants.
#[tactic(auto, using(crate::proofs::MaskLaws::mask_steps))]
fn fieldless_mask(arities: &[u8], start: u16, n: u16) -> u16
    requires start_bound { start < 256 }
    requires n_bound { n ≤ 16 }
    ensures { result ≡ fieldless_mask arities.now start n }
{
    let mut mask: u16 = 0;
    for v in 0..n {
        mask += fieldless_bit(arities, start, v);
    }
    mask
}

#[tactic(auto, unfolding(crate::specs::Sorts::fieldless_entry))]
fn fieldless_entry(counts: &[u8], first: &[u8], arities: &[u8], y: u16) -> u16
    ensures { result ≡ fieldless_entry counts.now first.now arities.now y }
{
    let t = y.saturating_sub(1);
    let start = columns::byte(first, t);
    let n = columns::byte(counts, t);
    let mask = fieldless_mask(arities, start, n.min(16));
    columns::choose(y == 0, 0, mask)
}

#[tactic(auto, using(crate::proofs::SortLaws::column_filled))]
pub fn fieldless_entries(counts: &[u8; 6], first: &[u8; 6], arities: &[u8; 48]) -> [u16; 8]
    ensures { result ≡ filled 8 (fieldless_entry counts.now first.now arities.now) 8 }
{
    let mut column = [0u16; 8];
    for y in 0..8 {
        column[y as usize] = fieldless_entry(counts, first, arities, y);
    }
    column
}
