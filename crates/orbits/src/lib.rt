// Growth step by step, through the column of next types: to a number type, to the lowest type of a cycle, round the cycle.
// `specs/Orbits.antt` says what each entry is.
#![tactic(auto)]

ghost use Rattle.std.specs.Prelude.{◌≡◌, ◌<◌, ◌≤◌};
ghost use Rattle.growth.proofs.Orbit.{iterate};
ghost use Rattle.orbits.specs.Orbits.{distance_entry, met_after, number_after, on_to, period_entry, root_entry, steps_entry};
ghost use Rattle.columns.specs.Entries.{filled};

// The type after so many steps of growth. All searches below start again from the type: there are at most six types.
fn after(next: &[u8], steps: u8, t: u8) -> u8
    ensures { result ≡ iterate (on_to next.now) steps t }
{
    let mut u = t;
    for _ in 0..steps {
        u = columns::at(next, u as u16);
    }
    u
}

fn is_number_after(variants: &[u8], next: &[u8], t: u8, k: u8) -> bool
    ensures { result ≡ number_after variants.now next.now t k }
{
    let u = after(next, k, t);
    columns::at(variants, u as u16) == 0
}

fn steps_entry(variants: &[u8], next: &[u8], many: u8, t: u8) -> u8
    ensures { result ≡ steps_entry variants.now next.now many t }
{
    for k in 0..many {
        if is_number_after(variants, next, t, k) {
            return k;
        }
    }
    many
}

pub fn steps_entries(many: u8, variants: &[u8; 6], next: &[u8; 6]) -> [u8; 6]
    requires { many ≤ 6 }
    ensures { result ≡ filled 6 (steps_entry variants.now next.now many) many }
{
    let mut column = [0u8; 6];
    for t in 0..many {
        column[t as usize] = steps_entry(variants, next, many, t);
    }
    column
}

// As many steps as there are types lead onto the cycle, and as many more go all round it.
fn root_entry(next: &[u8], many: u8, t: u8) -> u8
    ensures { result ≡ root_entry next.now many t }
{
    let start = after(next, many, t);
    let mut root = start;
    for k in 0..many {
        root = root.min(after(next, k + 1, start));
    }
    root
}

fn is_met_after(next: &[u8], t: u8, u: u8, k: u8) -> bool
    ensures { result ≡ met_after next.now t u k }
{
    after(next, k, t) == u
}

fn distance_entry(next: &[u8], many: u8, t: u8) -> u8
    ensures { result ≡ distance_entry next.now many t }
{
    let root = root_entry(next, many, t);
    for k in 0..many {
        if is_met_after(next, t, root, k) {
            return k;
        }
    }
    many
}

fn period_entry(next: &[u8], many: u8, t: u8) -> u8
    ensures { result ≡ period_entry next.now many t }
{
    for k in 1..many {
        if is_met_after(next, t, t, k) {
            return k;
        }
    }
    many.max(1)
}

// The cycle that growth from each type ends in.
#[derive(Clone, Copy)]
pub struct Cycles {
    // its lowest type, and the steps to it
    pub root: [u8; 6],
    pub distance: [u8; 6],
    // steps of growth back to the type itself, where it is a root
    pub period: [u8; 6],
}

pub fn cycle_entries(many: u8, next: &[u8; 6]) -> Cycles
    requires { many ≤ 6 }
    ensures root_value { result.root ≡ filled 6 (root_entry next.now many) many }
    ensures distance_value { result.distance ≡ filled 6 (distance_entry next.now many) many }
    ensures period_value { result.period ≡ filled 6 (period_entry next.now many) many }
{
    let mut root = [0u8; 6];
    let mut distance = [0u8; 6];
    let mut period = [0u8; 6];
    for t in 0..many {
        root[t as usize] = root_entry(next, many, t);
        distance[t as usize] = distance_entry(next, many, t);
        period[t as usize] = period_entry(next, many, t);
    }
    Cycles {
        root,
        distance,
        period,
    }
}
