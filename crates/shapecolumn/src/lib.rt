// The shapes of all rows and defaults, one after the other, from the columns of a guard's tables. `specs/Shapes.antt` says
// what each place is.
#![tactic(auto)]

ghost use Rattle.std.specs.Prelude.{◌≡◌, ◌+◌, ◌*◌, ◌<◌};
ghost use Rattle.shapecolumn.specs.Shapes.{default_part, made_place, shape_entry};
ghost use Rattle.columns.specs.Entries.{filled, written};

// What stands in place `j` of the shape of a default of type `t` and variant `v`, from place 4 on.
#[tactic(auto, unfolding(crate::specs::Shapes::default_part))]
fn default_part(first: &[u8], arities: &[u8], sorts: &[u8], t: u16, v: u16, j: u16) -> u16
    requires v_bound { v < 256 }
    requires j_bound { j < 8 }
    ensures { result ≡ default_part first.now arities.now sorts.now t v j }
{
    let q = j.saturating_sub(4);
    let many = rowshapes::arity_of(first, arities, t, v);
    let start = columns::byte(first, t);
    let sort = columns::byte(sorts, 3 * (start + v) + q);
    columns::choose(q < many, 72 + sort, 0)
}

// The shape of the default of type `t`, which has variants, in its eight places.
#[tactic(auto, using(crate::proofs::SlotLaws::default_written))]
fn write_default(
    column: &mut [u16; 256],
    defaults: &[u8],
    first: &[u8],
    arities: &[u8],
    sorts: &[u8],
    t: u16,
)
    requires { t < 8 }
    ensures { column.new ≡ written 8 column.old (192 + 8 * t) (made_place defaults.now first.now arities.now sorts.now t) }
{
    let v = columns::byte(defaults, t);
    let many = rowshapes::arity_of(first, arities, t, v);
    let a = default_part(first, arities, sorts, t, v, 4);
    let b = default_part(first, arities, sorts, t, v, 5);
    let c = default_part(first, arities, sorts, t, v, 6);
    let d = default_part(first, arities, sorts, t, v, 7);
    let at = 192 + 8 * t as usize;
    rowshapes::write_shape(column, at, 72 + t, 1 + 16 * t + v, 0, many, a, b, c, d);
}

// Only slots that hold a shape are written.
#[tactic(auto, using(crate::proofs::SlotLaws::slots_filled))]
pub fn shape_entries(
    kinds: &[u8; 24],
    types: &[u8; 24],
    variants: &[u8; 24],
    parts: &[u8; 72],
    fields: &[u8; 72],
    counts: &[u8; 6],
    defaults: &[u8; 6],
    first: &[u8; 6],
    arities: &[u8; 48],
    sorts: &[u8; 144],
) -> [u16; 256]
    ensures { result ≡ filled 256 (shape_entry kinds.now types.now variants.now parts.now fields.now counts.now defaults.now first.now arities.now sorts.now) 256 }
{
    let mut column = [0u16; 256];
    for i in 0..24 {
        if columns::byte(kinds, i) > 1 {
            rowshapes::write_row(
                &mut column,
                kinds,
                types,
                variants,
                parts,
                fields,
                first,
                arities,
                i,
            );
        }
    }
    for t in 0..8 {
        if columns::byte(counts, t) > 0 {
            write_default(&mut column, defaults, first, arities, sorts, t);
        }
    }
    column
}
