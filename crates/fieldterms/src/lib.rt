// The fields of the variant that a row reads: the number of the variant, the term of each field, the position of each sibling.
#![tactic(auto)]

ghost use Rattle.std.specs.Prelude.{◌≡◌, ◌<◌, get_or};
ghost use Rattle.fieldterms.specs.FieldTerms.{ReadsInRange, field_term_at, place_at, sibling_position};

// A byte as an index.
pub fn wide(x: u8) -> usize
    ensures { result ≡ x }
{
    x as usize
}

// The number of the variant read by row `i` among the variants of all types.
#[tactic(auto, unfolding(crate::specs::FieldTerms::place_at))]
pub fn place(
    many: usize,
    kinds: &[u8; 24],
    types: &[u8; 24],
    variants: &[u8; 24],
    parts: &[u8; 72],
    first: &[u8; 6],
    i: usize,
) -> usize
    requires reads_in_range { ReadsInRange many kinds.now types.now variants.now parts.now first.now }
    requires i_lt_many { i < many }
    requires i_value { get_or kinds.now i 0 ≡ 3 }
    ensures { result ≡ place_at types.now variants.now parts.now first.now i }
{
    let a = wide(parts[3 * i]);
    let t = wide(types[a]);
    let start = wide(first[t]);
    let v = wide(variants[i]);
    start + v
}

// The term of the field at position `q`, for a read at `position` in row `row`.
#[tactic(auto, unfolding(crate::specs::FieldTerms::field_term_at))]
pub fn field_term(row: u8, position: u8, q: u8) -> u8
    requires row_bound { row < 24 }
    requires q_bound { q < 3 }
    ensures { result ≡ field_term_at row position q }
{
    if q == position {
        return row;
    }
    if q < position {
        return 24 + 2 * row + q;
    }
    23 + 2 * row + q
}

// The position of sibling `k`.
#[tactic(auto, unfolding(crate::specs::FieldTerms::sibling_position))]
pub fn sibling_position(position: usize, k: usize) -> usize
    requires { k < 2 }
    ensures { result ≡ sibling_position position k }
{
    if k < position { k } else { k + 1 }
}
