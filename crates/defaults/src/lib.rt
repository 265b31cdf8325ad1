// The variant of each type's default, found from the columns of the table of types by rounds, and question 8.
// `specs/Settled.antt` says what each function computes.
#![tactic(auto)]

ghost use Rattle.std.specs.Prelude.{◌≡◌, cond, ◌<◌, ◌≤◌, eqb};
ghost use Rattle.laws.specs.Lists.{all};
ghost use Rattle.guard.specs.Types.{defaults};
ghost use Rattle.finite.specs.TypeColumns.{FieldsInRange, InRange, column, fields_at, types_in};
ghost use Rattle.defaults.specs.Settled.{all_settled, first_settled, is_settled, next_settled, settled_column};

// Whether all field types of variant `w` are settled.
#[tactic(auto, using(crate::proofs::SettledLaws::fields_settled))]
fn variant_ready(arities: &[u8; 48], sorts: &[u8; 144], settled: &[u8; 6], w: usize) -> bool
    requires fields_in_range { FieldsInRange arities.now sorts.now }
    requires w_bound { w < 48 }
    ensures { result ≡ all (is_settled settled.now) (fields_at arities.now sorts.now w) }
{
    let arity = arities[w] as usize;
    for j in 0..arity {
        let t = sorts[3 * w + j] as usize;
        if settled[t] == 255 {
            return false;
        }
    }
    true
}

// The default of type `t` after one more round: the one that it has, else its lowest variant that is ready by the
// defaults of earlier rounds, else none.
#[tactic(auto, using(crate::proofs::SettledLaws::turns))]
fn next_default(
    many: usize,
    variants: &[u8; 6],
    first: &[u8; 6],
    arities: &[u8; 48],
    sorts: &[u8; 144],
    settled: &[u8; 6],
    t: usize,
) -> u8
    requires in_range { InRange many variants.now first.now arities.now sorts.now }
    requires t_lt_many { t < many }
    ensures { result ≡ next_settled settled.now (types_in many variants.now first.now arities.now sorts.now) t }
{
    let old = settled[t];
    if old != 255 {
        return old;
    }
    let n = variants[t] as usize;
    let start = first[t] as usize;
    for v in 0..n {
        if variant_ready(arities, sorts, settled, start + v) {
            return v as u8;
        }
    }
    255
}

// A round of defaults. It reads the last round's and writes new ones, since only defaults of earlier rounds count.
#[tactic(auto, using(crate::proofs::SettledLaws::filling))]
fn next_defaults(
    many: usize,
    variants: &[u8; 6],
    first: &[u8; 6],
    arities: &[u8; 48],
    sorts: &[u8; 144],
    settled: &[u8; 6],
) -> [u8; 6]
    requires { InRange many variants.now first.now arities.now sorts.now }
    ensures { result ≡ column (next_settled settled.now (types_in many variants.now first.now arities.now sorts.now)) many }
{
    let mut next = [0u8; 6];
    for t in 0..many {
        next[t] = next_default(many, variants, first, arities, sorts, settled, t);
    }
    next
}

// The default of a type with so many variants before the first round: a number type has 0, any other none.
fn first_default(variants: u8) -> u8
    ensures { result ≡ cond (eqb variants 0) 0 255 }
{
    if variants == 0 { 0 } else { 255 }
}

#[tactic(auto, using(crate::proofs::SettledLaws::filling))]
fn first_defaults(many: usize, variants: &[u8; 6]) -> [u8; 6]
    requires { many ≤ 6 }
    ensures { result ≡ column (first_settled variants.now) many }
{
    let mut next = [0u8; 6];
    for t in 0..many {
        next[t] = first_default(variants[t]);
    }
    next
}

// The variant of each type's default: 0 for a number type, 255 where there is none. Each round settles a type or none is
// ever settled again, so as many rounds as types suffice.
#[tactic(auto, using(crate::proofs::RoundLaws::rounds))]
pub fn default_variants(
    many: usize,
    variants: &[u8; 6],
    first: &[u8; 6],
    arities: &[u8; 48],
    sorts: &[u8; 144],
) -> [u8; 6]
    requires { InRange many variants.now first.now arities.now sorts.now }
    ensures { result ≡ settled_column (defaults (types_in many variants.now first.now arities.now sorts.now)) }
{
    let mut settled = first_defaults(many, variants);
    for round in 0..many {
        settled = next_defaults(many, variants, first, arities, sorts, &settled);
    }
    settled
}

// Question 8: does every type have a default?
#[tactic(auto, using(crate::proofs::SettledLaws::settled_all))]
pub fn all_settled(many: usize, settled: &[u8; 6]) -> bool
    requires { many ≤ 6 }
    ensures { result ≡ all_settled settled.now many }
{
    !settled[..many].contains(&255)
}
