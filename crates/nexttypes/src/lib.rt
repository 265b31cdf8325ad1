// The type that growth goes on to from each type, from the columns of the table of types. `specs/NextTypes.antt` says what
// each entry is.
#![tactic(auto)]

ghost use Rattle.std.specs.Prelude.{◌≡◌, ◌<◌, ◌≤◌};
ghost use Rattle.nexttypes.specs.NextTypes.{chosen_entry, fielded_at, growing_entry, infinite_at, next_entry, sort_at};
ghost use Rattle.columns.specs.Entries.{filled};

// Whether field `p` of the variant at place `w` is infinite.
fn is_infinite(sorts: &[u8], finite: &[u8], w: u16, p: u8) -> bool
    requires { w < 48 }
    ensures { result ≡ infinite_at sorts.now finite.now w p }
{
    let t = columns::at(sorts, 3 * w + p as u16);
    columns::at(finite, t as u16) != 1
}

fn chosen_entry(arities: &[u8], sorts: &[u8], finite: &[u8], w: u16) -> u8
    requires { w < 48 }
    ensures { result ≡ chosen_entry arities.now sorts.now finite.now w }
{
    let n = columns::at(arities, w);
    for p in 0..n {
        if is_infinite(sorts, finite, w, p) {
            return p;
        }
    }
    n
}

pub fn chosen_entries(arities: &[u8; 48], sorts: &[u8; 144], finite: &[u8; 6]) -> [u8; 48]
    ensures { result ≡ filled 48 (chosen_entry arities.now sorts.now finite.now) 48 }
{
    let mut column = [0u8; 48];
    for w in 0..48u16 {
        column[w as usize] = chosen_entry(arities, sorts, finite, w);
    }
    column
}

// Whether variant `v` of a type has fields; the type's first variant is at place `start`.
fn is_fielded(arities: &[u8], start: u8, v: u8) -> bool
    ensures { result ≡ fielded_at arities.now start v }
{
    0 < columns::at(arities, start as u16 + v as u16)
}

fn growing_entry(variants: &[u8], first: &[u8], arities: &[u8], t: u8) -> u8
    ensures { result ≡ growing_entry variants.now first.now arities.now t }
{
    let n = columns::at(variants, t as u16);
    let start = columns::at(first, t as u16);
    for v in 0..n {
        if is_fielded(arities, start, v) {
            return v;
        }
    }
    n
}

pub fn growing_entries(many: u8, variants: &[u8; 6], first: &[u8; 6], arities: &[u8; 48]) -> [u8; 6]
    requires { many ≤ 6 }
    ensures { result ≡ filled 6 (growing_entry variants.now first.now arities.now) many }
{
    let mut column = [0u8; 6];
    for t in 0..many {
        column[t as usize] = growing_entry(variants, first, arities, t);
    }
    column
}

// The type of field `c` of the variant at place `w`.
fn sort_at(arities: &[u8], sorts: &[u8], w: u16, c: u8) -> u8
    requires { w < 512 }
    ensures { result ≡ sort_at arities.now sorts.now w c }
{
    let sort = columns::at(sorts, 3 * w + c as u16);
    let arity = columns::at(arities, w);
    columns::choose_byte(c < arity, sort, 0)
}

fn next_entry(
    variants: &[u8],
    first: &[u8],
    arities: &[u8],
    sorts: &[u8],
    chosen: &[u8],
    growing: &[u8],
    t: u8,
) -> u8
    ensures { result ≡ next_entry variants.now first.now arities.now sorts.now chosen.now growing.now t }
{
    let start = columns::at(first, t as u16);
    let v = columns::at(growing, t as u16);
    let w = start as u16 + v as u16;
    let c = columns::at(chosen, w);
    let sort = sort_at(arities, sorts, w, c);
    let n = columns::at(variants, t as u16);
    columns::choose_byte(v < n, sort, 0)
}

pub fn next_entries(
    many: u8,
    variants: &[u8; 6],
    first: &[u8; 6],
    arities: &[u8; 48],
    sorts: &[u8; 144],
    chosen: &[u8; 48],
    growing: &[u8; 6],
) -> [u8; 6]
    requires { many ≤ 6 }
    ensures { result ≡ filled 6 (next_entry variants.now first.now arities.now sorts.now chosen.now growing.now) many }
{
    let mut column = [0u8; 6];
    for t in 0..many {
        column[t as usize] = next_entry(variants, first, arities, sorts, chosen, growing, t);
    }
    column
}
