// The finite types, found from the columns of the table of types by rounds. `specs/Finite.antt` says what each function computes.
#![tactic(auto)]

ghost use Rattle.std.specs.Prelude.{◌≡◌, ◌<◌};
ghost use Rattle.finite.specs.TypeColumns.{InRange, fields_at, types_in};
ghost use Rattle.finite.specs.Finite.{finite_column, finite_type_from, finite_variant_from, flags};

// Whether type `t` is found to be finite in so many rounds. `known` has a 1 for each type that is known to be finite
// already: it is finite at once, which keeps the recursion shallow. Plain recursion would take exponential time where
// types are layered.
#[cycle(type_finite_variant_finite)]
#[tactic(auto, using(crate::proofs::FiniteLaws::turns))]
fn type_finite(
    many: usize,
    variants: &[u8; 6],
    first: &[u8; 6],
    arities: &[u8; 48],
    sorts: &[u8; 144],
    known: &[u8; 6],
    t: usize,
    rounds: u32,
) -> bool
    requires in_range { InRange many variants.now first.now arities.now sorts.now }
    requires t_lt_many { t < many }
    ensures { result ≡ finite_type_from known.now rounds (types_in many variants.now first.now arities.now sorts.now) t }
{
    if known[t] == 1 {
        return true;
    }
    if rounds == 0 {
        return false;
    }
    let n = variants[t] as usize;
    // a number type
    if n == 0 {
        return false;
    }
    let start = first[t] as usize;
    for v in 0..n {
        if !variant_finite(
            many,
            variants,
            first,
            arities,
            sorts,
            known,
            start + v,
            rounds - 1,
        ) {
            return false;
        }
    }
    true
}

// Whether variant `w`, counted through all types, is found to be finite in so many rounds: each field type is, in one
// round less.
#[cycle(type_finite_variant_finite)]
#[tactic(auto, using(crate::proofs::FiniteLaws::turns))]
fn variant_finite(
    many: usize,
    variants: &[u8; 6],
    first: &[u8; 6],
    arities: &[u8; 48],
    sorts: &[u8; 144],
    known: &[u8; 6],
    w: usize,
    rounds: u32,
) -> bool
    requires in_range { InRange many variants.now first.now arities.now sorts.now }
    requires w_bound { w < 48 }
    ensures { result ≡ finite_variant_from known.now rounds (types_in many variants.now first.now arities.now sorts.now) (fields_at arities.now sorts.now w) }
{
    let n = arities[w] as usize;
    if rounds == 0 {
        return n == 0;
    }
    for j in 0..n {
        let t = sorts[3 * w + j] as usize;
        if !type_finite(many, variants, first, arities, sorts, known, t, rounds - 1) {
            return false;
        }
    }
    true
}

// Two rounds more: the types that are known, and those whose field types are all known.
#[tactic(auto, using(crate::proofs::FiniteLaws::flagging))]
fn next_known(
    many: usize,
    variants: &[u8; 6],
    first: &[u8; 6],
    arities: &[u8; 48],
    sorts: &[u8; 144],
    known: &[u8; 6],
) -> [u8; 6]
    requires { InRange many variants.now first.now arities.now sorts.now }
    ensures { result ≡ flags (finite_type_from known.now 2 (types_in many variants.now first.now arities.now sorts.now)) many }
{
    let mut next = [0u8; 6];
    for t in 0..many {
        next[t] = u8::from(type_finite(many, variants, first, arities, sorts, known, t, 2));
    }
    next
}

// The finite types: 1 for a finite type. Two rounds find a further finite type or there is none left, so as many times
// two rounds as there are types find all.
#[tactic(auto, using(crate::proofs::FiniteLaws::rounds))]
pub fn finite_types(
    many: usize,
    variants: &[u8; 6],
    first: &[u8; 6],
    arities: &[u8; 48],
    sorts: &[u8; 144],
) -> [u8; 6]
    requires { InRange many variants.now first.now arities.now sorts.now }
    ensures { result ≡ finite_column (types_in many variants.now first.now arities.now sorts.now) }
{
    let mut known = [0u8; 6];
    for pass in 0..many {
        known = next_known(many, variants, first, arities, sorts, &known);
    }
    known
}
