// The shape of each row, eight places at once, from the columns of a guard's tables. `specs/RowShapes.antt` says what each
// place is.
#![tactic(auto)]

ghost use Rattle.std.specs.Prelude.{◌≡◌, ◌+◌, ◌*◌, ◌≤◌, ◌<◌, get_or};
ghost use Rattle.columns.specs.Entries.{written};
ghost use Rattle.rowshapes.specs.RowShapes.{arity_of, eight_places, others_of, owner_of, part_place, row_part, row_place};

// A shape, in the eight places from `at` on.
#[tactic(auto, using(crate::proofs::ShapeLaws::eight_written))]
pub fn write_shape(
    column: &mut [u16; 256],
    at: usize,
    owner: u16,
    kind: u16,
    others: u16,
    many: u16,
    a: u16,
    b: u16,
    c: u16,
    d: u16,
)
    requires { at + 8 ≤ 256 }
    ensures { column.new ≡ written 8 column.old at (eight_places owner kind others many a b c d) }
{
    column[at] = owner;
    column[at + 1] = kind;
    column[at + 2] = others;
    column[at + 3] = many;
    column[at + 4] = a;
    column[at + 5] = b;
    column[at + 6] = c;
    column[at + 7] = d;
}

// From a column with three places to a row: what stands in place `j` of the shape of row `i`, from place 4 on.
#[tactic(auto, unfolding(crate::specs::RowShapes::part_place))]
fn part_place(column: &[u8], i: u16, j: u16) -> u16
    requires i_bound { i < 32 }
    requires j_bound { j < 8 }
    ensures { result ≡ part_place column.now i j }
{
    let part = columns::byte(column, (3 * i + j).saturating_sub(4));
    columns::choose(j < 7, part, 0)
}

// How many fields variant `v` of type `t` has.
#[tactic(auto, unfolding(crate::specs::RowShapes::arity_of))]
pub fn arity_of(first: &[u8], arities: &[u8], t: u16, v: u16) -> u16
    requires { v < 256 }
    ensures { result ≡ arity_of first.now arities.now t v }
{
    let start = columns::byte(first, t);
    columns::byte(arities, start + v)
}

// The term that row `i` builds or reads.
#[tactic(auto, unfolding(crate::specs::RowShapes::owner_of))]
fn owner_of(kind: u16, parts: &[u8], i: u16) -> u16
    requires { i < 32 }
    ensures { result ≡ owner_of kind parts.now i }
{
    let a = columns::byte(parts, 3 * i);
    columns::choose(kind == 3, a, i)
}

// The variants that must have gone before a row counts as built.
#[tactic(auto, unfolding(crate::specs::RowShapes::others_of))]
fn others_of(kind: u16, v: u16) -> u16
    ensures { result ≡ others_of kind v }
{
    let others = 65535 - columns::bit_of(v);
    columns::choose(kind == 3, others, 0)
}

#[tactic(auto, unfolding(crate::specs::RowShapes::row_part))]
fn row_part(kind: u16, parts: &[u8], fields: &[u8], i: u16, j: u16) -> u16
    requires i_bound { i < 32 }
    requires j_bound { j < 8 }
    ensures { result ≡ row_part kind parts.now fields.now i j }
{
    let field = part_place(fields, i, j);
    let part = part_place(parts, i, j);
    columns::choose(kind == 3, field, part)
}

// The shape of row `i`, a built one or a field read, in its eight places.
#[tactic(auto, using(crate::proofs::ShapeLaws::row_written))]
pub fn write_row(
    column: &mut [u16; 256],
    kinds: &[u8],
    types: &[u8],
    variants: &[u8],
    parts: &[u8],
    fields: &[u8],
    first: &[u8],
    arities: &[u8],
    i: u16,
)
    requires i_bound { i < 24 }
    requires bound { 2 ≤ get_or kinds.now i 0 }
    ensures { column.new ≡ written 8 column.old (8 * i) (row_place kinds.now types.now variants.now parts.now fields.now first.now arities.now i) }
{
    let kind = columns::byte(kinds, i);
    let owner = owner_of(kind, parts, i);
    let t = columns::byte(types, owner);
    let v = columns::byte(variants, i);
    let others = others_of(kind, v);
    let many = arity_of(first, arities, t, v);
    let a = row_part(kind, parts, fields, i, 4);
    let b = row_part(kind, parts, fields, i, 5);
    let c = row_part(kind, parts, fields, i, 6);
    write_shape(
        column,
        8 * i as usize,
        owner,
        1 + 16 * t + v,
        others,
        many,
        a,
        b,
        c,
        0,
    );
}
