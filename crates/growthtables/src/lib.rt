// How messages of each type grow, from the table of types: what the drawing of fresh messages needs, made once a file.
// `specs/Growth.antt` says what each entry is.
#![tactic(auto)]

ghost use Rattle.std.specs.Prelude.{◌≡◌};
ghost use Rattle.tables.specs.Layout.{TypesInRange};
ghost use Rattle.growthtables.specs.Growth.{growth_by};

use finite::finite_types;
use tables::TypeTable;

#[derive(Clone, Copy)]
pub struct Growth {
    // for each variant, counted through all types: the position of its first infinite field
    pub chosen: [u8; 48],
    // for each type: its lowest variant with fields, and the number of its variants where there is none
    pub growing: [u8; 6],
    // the type that growth goes on to
    pub next: [u8; 6],
    // steps of growth to a number type, and the number of types where growth meets none
    pub steps: [u8; 6],
    // the lowest type of the cycle that growth ends in, and the steps to it
    pub root: [u8; 6],
    pub distance: [u8; 6],
    // steps of growth back to the type itself, where it is a root
    pub period: [u8; 6],
}

pub fn growth_of(table: TypeTable) -> Growth
    requires { TypesInRange table }
    ensures { result ≡ growth_by table }
{
    let many = table.many as u8;
    let variants = table.variants;
    let first = table.first;
    let arities = table.arities;
    let sorts = table.sorts;
    let finite = finite_types(table.many, &variants, &first, &arities, &sorts);
    let chosen = nexttypes::chosen_entries(&arities, &sorts, &finite);
    let growing = nexttypes::growing_entries(many, &variants, &first, &arities);
    let next = nexttypes::next_entries(
        many, &variants, &first, &arities, &sorts, &chosen, &growing,
    );
    let steps = orbits::steps_entries(many, &variants, &next);
    let cycles = orbits::cycle_entries(many, &next);
    let root = cycles.root;
    let distance = cycles.distance;
    let period = cycles.period;
    Growth {
        chosen,
        growing,
        next,
        steps,
        root,
        distance,
        period,
    }
}
