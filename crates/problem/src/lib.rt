// The arrays that the search reads, from the tables of a guard. `specs/Arrays.antt` of `arrays` says what each entry is,
// `specs/Columns.antt` how it comes from the tables.
#![tactic(auto)]

ghost use Rattle.std.specs.Prelude.{◌≡◌};
ghost use Rattle.problem.specs.Columns.{problem_by};

use reader::Tables;

#[derive(Clone, Copy)]
pub struct Problem {
    // eight places to a slot: a term, its kind, the variants that must have gone, how many parts, the parts
    pub shapes: [u16; 256],
    // four places to a row: the term read, the field, the variant's bit, the default
    pub reads: [u16; 96],
    // the type of each term, plus one
    pub sorts: [u8; 96],
    // by type plus one: all variants, and the fieldless ones
    pub full: [u16; 8],
    pub fieldless: [u16; 8],
    // the type of the constant in each slot, plus one
    pub constants: [u8; 32],
}

// The problem of a guard, from its tables.
pub fn problem_of(tables: Tables) -> Problem
    ensures { result ≡ problem_by tables }
{
    let rows = tables.rows;
    let types = tables.types;
    let siblings = tables.siblings;
    let kinds = rows.kinds;
    let sorts = rows.types;
    let variants = rows.variants;
    let parts = rows.parts;
    let counts = types.variants;
    let first = types.first;
    let arities = types.arities;
    let constants = readcolumn::constant_entries(types.many, &kinds, &sorts, &counts);
    let fieldless = sortcolumn::fieldless_entries(&counts, &first, &arities);
    let full = sortcolumn::full_entries(&counts);
    let reads = readcolumn::read_entries(&kinds, &sorts, &variants, &parts);
    let others = siblings.sorts;
    let terms = sortcolumn::sort_entries(rows.many, types.many, &sorts, &others);
    let fields = siblings.fields;
    let defaults = tables.defaults;
    let field_sorts = types.sorts;
    let shapes = shapecolumn::shape_entries(
        &kinds,
        &sorts,
        &variants,
        &parts,
        &fields,
        &counts,
        &defaults,
        &first,
        &arities,
        &field_sorts,
    );
    Problem {
        shapes: shapes,
        reads: reads,
        sorts: terms,
        full: full,
        fieldless: fieldless,
        constants: constants,
    }
}
