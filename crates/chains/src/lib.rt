// Rows of growth: a variant over growth to a number, or down to a root and round its cycle. What goes round one cycle makes
// one chain, each a lap longer than the one before, so no row of it is drawn twice. `specs/Chains.antt` says what is drawn.
#![tactic(auto)]

ghost use Rattle.std.specs.Prelude.{◌≡◌, suc, ◌+◌, ◌*◌, ◌-◌, ◌≤◌, ◌<◌, length, set};
ghost use Rattle.guard.specs.Shown.{message_type};
ghost use Rattle.guard.specs.Types.{fields_of, variants_of};
ghost use Rattle.rowstore.specs.Store.{message_at};
ghost use Rattle.growth.proofs.ClosedPlans.{lap};
ghost use Rattle.growth.proofs.Growth.{Cyclic, GrowsBy, chosen_type, distance_of, grow_from, next_type, period_of, root_of, steps_to_number, wrap_in};
ghost use Rattle.growth.proofs.Orbit.{iterate};
ghost use Rattle.growth.proofs.Plans.{Plan.into, planned_message};
ghost use Rattle.forms.specs.Forms.{FormsFit, types_in};
ghost use Rattle.drawnrows.specs.Drawing.{Drew, Room, Store, Under, growth_rows};
ghost use Rattle.chains.specs.Chains.{LapNoted, Starts, TopsTyped, lap_message, top_message};

use drawnrows::Drawn;
use forms::Forms;

// The type of the field in which variant `v` of type `t` grows.
pub fn start(forms: Forms, t: u8, v: u8) -> u8
    requires forms_fit { FormsFit forms }
    requires t_in_bounds { t < length (types_in forms) }
    requires v_in_bounds { v < length (variants_of (types_in forms) t) }
    requires nonzero { 0 < length (fields_of (types_in forms) t v) }
    ensures { result ≡ chosen_type (types_in forms) t v }
{
    let p = forms::chosen(forms, t, v);
    forms::sort(forms, t, v, p as usize)
}

// Variant `v` of type `t` over so many steps of growth from type `s`, that of its chosen field, which end in `row`.
fn grown_row(
    forms: Forms,
    rows: &mut [i32],
    drawn: &mut [u16; 6],
    many: usize,
    t: u8,
    v: u8,
    s: u8,
    steps: u8,
    row: usize,
) -> Drawn
    requires forms_fit { FormsFit forms }
    requires store { Store (types_in forms) rows.old many drawn.old }
    requires room { Room rows.old many drawn.old (steps + 1) }
    requires starts { Starts (types_in forms) t v s }
    requires grows_by { GrowsBy (types_in forms) steps s }
    requires row_lt_many { row < many }
    requires row_value { message_type (message_at (types_in forms) rows.old many row) ≡ iterate (next_type (types_in forms)) steps s }
    ensures drew { Drew (types_in forms) rows.old many drawn.old (steps + 1) (wrap_in (types_in forms) t v (grow_from (types_in forms) steps s (message_at (types_in forms) rows.old many row))) rows.new result.many drawn.new result.row }
    ensures under { Under (types_in forms) rows.new result.row row }
{
    let g = growthrows::grow(forms, rows, drawn, many, steps, s, row);
    growthrows::wrap(forms, rows, drawn, g.many, t, v, g.row)
}

// The same down to number `z` of the number type that growth leads to.
pub fn ended_row(
    forms: Forms,
    rows: &mut [i32],
    drawn: &mut [u16; 6],
    many: usize,
    t: u8,
    v: u8,
    s: u8,
    z: i64,
) -> Drawn
    requires forms_fit { FormsFit forms }
    requires store { Store (types_in forms) rows.old many drawn.old }
    requires room { Room rows.old many drawn.old (3 * length (types_in forms) - 1) }
    requires starts { Starts (types_in forms) t v s }
    requires s_in_bounds { steps_to_number (types_in forms) s < length (types_in forms) }
    ensures { Drew (types_in forms) rows.old many drawn.old (3 * length (types_in forms) - 1) (planned_message (types_in forms) t (into v (steps_to_number (types_in forms) (chosen_type (types_in forms) t v)) z)) rows.new result.many drawn.new result.row }
{
    let growth = forms.growth;
    let n = growth.steps[s as usize];
    let u = forms::after(forms, n, s);
    let e = drawnrows::number_row(rows, many, u, z);
    grown_row(forms, rows, drawn, e.many, t, v, s, n, e.row)
}

// The row of the last message made at root `root`; that of its default if there is none.
fn top_row(
    forms: Forms,
    rows: &mut [i32],
    drawn: &mut [u16; 6],
    tops: &[u16; 6],
    many: usize,
    root: u8,
) -> Drawn
    requires forms_fit { FormsFit forms }
    requires store { Store (types_in forms) rows.old many drawn.old }
    requires room { Room rows.old many drawn.old 0 }
    requires tops_typed { TopsTyped (types_in forms) rows.old many tops.now }
    requires root_in_bounds { root < length (types_in forms) }
    ensures { Drew (types_in forms) rows.old many drawn.old 0 (top_message (types_in forms) rows.old many tops.now root) rows.new result.many drawn.new result.row }
{
    let known = tops[root as usize] as usize;
    if 0 < known {
        return Drawn {
            row: known - 1,
            many: many,
        };
    }
    defaultrows::default_row(forms, rows, drawn, many, root)
}

// The rounds of a lap: with them growths of one root differ by more than every rank and every distance.
fn turns(forms: Forms, most: u8, root: u8) -> usize
    requires forms_fit { FormsFit forms }
    requires root_in_bounds { root < length (types_in forms) }
    ensures { result * period_of (types_in forms) root ≡ lap (types_in forms) most root }
{
    let table = forms.table;
    let growth = forms.growth;
    let period = growth.period[root as usize] as usize;
    (most as usize + (table.many - 1)) / period + 1
}

// One lap more at root `root`, noted as the last message made there.
fn lapped_row(
    forms: Forms,
    rows: &mut [i32],
    drawn: &mut [u16; 6],
    tops: &mut [u16; 6],
    many: usize,
    most: u8,
    root: u8,
) -> Drawn
    requires forms_fit { FormsFit forms }
    requires store { Store (types_in forms) rows.old many drawn.old }
    requires room { Room rows.old many drawn.old (lap (types_in forms) most root) }
    requires tops_typed { TopsTyped (types_in forms) rows.old many tops.old }
    requires root_in_bounds { root < length (types_in forms) }
    requires cyclic { Cyclic (types_in forms) root }
    requires root_value { iterate (next_type (types_in forms)) (period_of (types_in forms) root) root ≡ root }
    ensures drew { Drew (types_in forms) rows.old many drawn.old (lap (types_in forms) most root) (lap_message (types_in forms) most rows.old many tops.old root) rows.new result.many drawn.new result.row }
    ensures tops_after { tops.new ≡ set tops.old root (suc result.row) }
{
    let d = top_row(forms, rows, drawn, tops, many, root);
    let n = turns(forms, most, root);
    let e = growthrows::rounds(forms, rows, drawn, d.many, n, root, d.row);
    tops[root as usize] = (e.row + 1) as u16;
    e
}

// Variant `v` of type `t` over growth from type `s` down to its root and round the cycle there.
pub fn circled_row(
    forms: Forms,
    rows: &mut [i32],
    drawn: &mut [u16; 6],
    tops: &mut [u16; 6],
    many: usize,
    most: u8,
    t: u8,
    v: u8,
    s: u8,
) -> Drawn
    requires forms_fit { FormsFit forms }
    requires store { Store (types_in forms) rows.old many drawn.old }
    requires room { Room rows.old many drawn.old (growth_rows (types_in forms) most) }
    requires tops_typed { TopsTyped (types_in forms) rows.old many tops.old }
    requires starts { Starts (types_in forms) t v s }
    requires forms_len_bound { length (types_in forms) ≤ steps_to_number (types_in forms) s }
    ensures drew { Drew (types_in forms) rows.old many drawn.old (growth_rows (types_in forms) most) (wrap_in (types_in forms) t v (grow_from (types_in forms) (distance_of (types_in forms) s) s (lap_message (types_in forms) most rows.old many tops.old (root_of (types_in forms) s)))) rows.new result.many drawn.new result.row }
    ensures lap_noted { LapNoted (types_in forms) most rows.old many tops.old (root_of (types_in forms) s) rows.new result.many tops.new }
{
    let growth = forms.growth;
    let root = growth.root[s as usize];
    let n = growth.distance[s as usize];
    let e = lapped_row(forms, rows, drawn, tops, many, most, root);
    grown_row(forms, rows, drawn, e.many, t, v, s, n, e.row)
}
