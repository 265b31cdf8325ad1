// Sibling fields: for each field read of a guard, the terms of its variant's fields and the types of those that no row
// has. `specs/Siblings.antt` says what each entry is.
#![tactic(auto)]

ghost use Rattle.std.specs.Prelude.{◌≡◌, ◌<◌, ◌*◌};
ghost use Rattle.tables.specs.Layout.{TypesInRange};
ghost use Rattle.siblings.specs.Siblings.{ReadsInRange, SortsInRange, field_entries, field_entry, siblings_by, sort_entries, sort_entry};

use tables::{RowTable, TypeTable};

#[derive(Clone, Copy)]
pub struct Siblings {
    // three places to a row: for a field read the terms of its variant's fields in order of position
    pub fields: [u8; 72],
    // two places to a row: the type of sibling term 24 + 2 × row + k, plus one; 0 where there is no such term
    pub sorts: [u8; 48],
}

// The entry of row `i` at position `q` in the column of fields.
#[tactic(auto, unfolding(crate::specs::Siblings::field_entry))]
fn field_entry(
    many: usize,
    kinds: &[u8; 24],
    types: &[u8; 24],
    variants: &[u8; 24],
    parts: &[u8; 72],
    first: &[u8; 6],
    arities: &[u8; 48],
    i: usize,
    q: usize,
) -> u8
    requires reads_in_range { ReadsInRange many kinds.now types.now variants.now parts.now first.now }
    requires i_lt_many { i < many }
    requires q_bound { q < 3 }
    ensures { result ≡ field_entry kinds.now types.now variants.now parts.now first.now arities.now i q }
{
    if kinds[i] != 3 {
        return 0;
    }
    let w = fieldterms::place(many, kinds, types, variants, parts, first, i);
    if fieldterms::wide(arities[w]) <= q {
        return 0;
    }
    fieldterms::field_term(i as u8, parts[3 * i + 1], q as u8)
}

// The entry of row `i` for sibling `k` in the column of types.
#[tactic(auto, using(crate::proofs::EntryLaws::position), unfolding(crate::specs::Siblings::sort_entry))]
fn sort_entry(
    many: usize,
    kinds: &[u8; 24],
    types: &[u8; 24],
    variants: &[u8; 24],
    parts: &[u8; 72],
    first: &[u8; 6],
    arities: &[u8; 48],
    sorts: &[u8; 144],
    i: usize,
    k: usize,
) -> u8
    requires reads_in_range { ReadsInRange many kinds.now types.now variants.now parts.now first.now }
    requires sorts_in_range { SortsInRange arities.now sorts.now }
    requires i_lt_many { i < many }
    requires k_bound { k < 2 }
    ensures { result ≡ sort_entry kinds.now types.now variants.now parts.now first.now arities.now sorts.now i k }
{
    if kinds[i] != 3 {
        return 0;
    }
    let w = fieldterms::place(many, kinds, types, variants, parts, first, i);
    let q = fieldterms::sibling_position(fieldterms::wide(parts[3 * i + 1]), k);
    if fieldterms::wide(arities[w]) <= q {
        return 0;
    }
    sorts[3 * w + q] + 1
}

// The column of fields, place by place: three to a row.
#[tactic(auto, using(crate::proofs::EntryLaws::fields))]
fn field_entries(
    many: usize,
    kinds: &[u8; 24],
    types: &[u8; 24],
    variants: &[u8; 24],
    parts: &[u8; 72],
    first: &[u8; 6],
    arities: &[u8; 48],
) -> [u8; 72]
    requires { ReadsInRange many kinds.now types.now variants.now parts.now first.now }
    ensures { result ≡ field_entries kinds.now types.now variants.now parts.now first.now arities.now (3 * many) }
{
    let mut column = [0u8; 72];
    for x in 0..3 * many {
        column[x] = field_entry(
            many,
            kinds,
            types,
            variants,
            parts,
            first,
            arities,
            x / 3,
            x % 3,
        );
    }
    column
}

// The column of types, place by place: two to a row.
#[tactic(auto, using(crate::proofs::EntryLaws::sorts))]
fn sort_entries(
    many: usize,
    kinds: &[u8; 24],
    types: &[u8; 24],
    variants: &[u8; 24],
    parts: &[u8; 72],
    first: &[u8; 6],
    arities: &[u8; 48],
    sorts: &[u8; 144],
) -> [u8; 48]
    requires reads_in_range { ReadsInRange many kinds.now types.now variants.now parts.now first.now }
    requires sorts_in_range { SortsInRange arities.now sorts.now }
    ensures { result ≡ sort_entries kinds.now types.now variants.now parts.now first.now arities.now sorts.now (2 * many) }
{
    let mut column = [0u8; 48];
    for x in 0..2 * many {
        column[x] = sort_entry(
            many,
            kinds,
            types,
            variants,
            parts,
            first,
            arities,
            sorts,
            x / 2,
            x % 2,
        );
    }
    column
}

// The sibling fields of an accepted guard, from its tables.
#[tactic(auto, using(crate::proofs::EntryLaws::sorts_in_range), unfolding(crate::specs::Siblings::siblings_by))]
pub fn sibling_fields(table: TypeTable, rows: RowTable) -> Siblings
    requires types_in_range { TypesInRange table }
    requires reads_in_range { ReadsInRange rows.many rows.kinds rows.types rows.variants rows.parts table.first }
    ensures { result ≡ siblings_by table rows }
{
    let many = rows.many;
    let kinds = rows.kinds;
    let types = rows.types;
    let variants = rows.variants;
    let parts = rows.parts;
    let first = table.first;
    let arities = table.arities;
    let sorts = table.sorts;
    let fields = field_entries(many, &kinds, &types, &variants, &parts, &first, &arities);
    let siblings = sort_entries(
        many, &kinds, &types, &variants, &parts, &first, &arities, &sorts,
    );
    Siblings {
        fields,
        sorts: siblings,
    }
}
