// What the drawing of rows looks at: the types, the variant of each default, and how messages grow. `specs/Forms.antt` says what it is.
#![tactic(auto)]

ghost use Rattle.std.specs.Prelude.{◌≡◌, ◌*◌, ◌<◌, length};
ghost use Rattle.guard.specs.Types.{field_type, fields_of, variants_of};
ghost use Rattle.growth.proofs.Growth.{chosen_field, next_type};
ghost use Rattle.growth.proofs.Orbit.{iterate};
ghost use Rattle.forms.specs.Forms.{FormsFit, types_in};

use growthtables::Growth;
use tables::TypeTable;

// What is looked at: the types, the variant of each type's default, and how messages grow.
#[derive(Clone, Copy)]
pub struct Forms {
    pub table: TypeTable,
    pub defaults: [u8; 6],
    pub growth: Growth,
}

// How many fields variant `v` of type `t` has.
pub fn arity(forms: Forms, t: u8, v: u8) -> u8
    requires forms_fit { FormsFit forms }
    requires t_in_bounds { t < length (types_in forms) }
    requires v_in_bounds { v < length (variants_of (types_in forms) t) }
    ensures { result ≡ length (fields_of (types_in forms) t v) }
{
    let table = forms.table;
    let w = table.first[t as usize] as usize + v as usize;
    table.arities[w]
}

// The type of field `p`.
pub fn sort(forms: Forms, t: u8, v: u8, p: usize) -> u8
    requires forms_fit { FormsFit forms }
    requires t_in_bounds { t < length (types_in forms) }
    requires v_in_bounds { v < length (variants_of (types_in forms) t) }
    requires p_in_bounds { p < length (fields_of (types_in forms) t v) }
    ensures { result ≡ field_type (types_in forms) t v p }
{
    let table = forms.table;
    let w = table.first[t as usize] as usize + v as usize;
    table.sorts[3 * w + p]
}

// The field in which variant `v` of type `t` grows.
pub fn chosen(forms: Forms, t: u8, v: u8) -> u8
    requires forms_fit { FormsFit forms }
    requires t_in_bounds { t < length (types_in forms) }
    requires v_in_bounds { v < length (variants_of (types_in forms) t) }
    ensures { result ≡ chosen_field (types_in forms) t v }
{
    let table = forms.table;
    let w = table.first[t as usize] as usize + v as usize;
    let growth = forms.growth;
    growth.chosen[w]
}

// The type after so many steps of growth.
pub fn after(forms: Forms, steps: u8, t: u8) -> u8
    requires forms_fit { FormsFit forms }
    requires t_in_bounds { t < length (types_in forms) }
    ensures { result ≡ iterate (next_type (types_in forms)) steps t }
{
    let growth = forms.growth;
    let mut u = t;
    for _ in 0..steps {
        u = growth.next[u as usize];
    }
    u
}
