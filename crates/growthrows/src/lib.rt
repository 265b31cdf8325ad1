// Rows of grown messages, drawn into the lent row buffer: a variant over a row, steps of growth and whole rounds of a cycle. Only what
// is asked for is drawn, so every new row lies under the row that is handed back.
#![tactic(auto)]

ghost use Rattle.std.specs.Prelude.{◌≡◌, ◌*◌, ◌<◌, length};
ghost use Rattle.guard.specs.Shown.{message_type};
ghost use Rattle.guard.specs.Types.{fields_of, variants_of};
ghost use Rattle.rowstore.specs.Store.{message_at};
ghost use Rattle.growth.proofs.Growth.{Cyclic, GrowsBy, chosen_type, grow_from, next_type, period_of, wrap_in};
ghost use Rattle.growth.proofs.Orbit.{iterate};
ghost use Rattle.forms.specs.Forms.{FormsFit, types_in};
ghost use Rattle.drawnrows.specs.Drawing.{Drew, Room, Store, Under};

use drawnrows::Drawn;
use forms::Forms;

// Variant `v` of type `t` over `row` in its chosen field, defaults in the others.
pub fn wrap(
    forms: Forms,
    rows: &mut [i32],
    drawn: &mut [u16; 6],
    many: usize,
    t: u8,
    v: u8,
    row: usize,
) -> Drawn
    requires forms_fit { FormsFit forms }
    requires store { Store (types_in forms) rows.old many drawn.old }
    requires room { Room rows.old many drawn.old 1 }
    requires t_in_bounds { t < length (types_in forms) }
    requires v_in_bounds { v < length (variants_of (types_in forms) t) }
    requires nonzero { 0 < length (fields_of (types_in forms) t v) }
    requires row_lt_many { row < many }
    requires row_value { message_type (message_at (types_in forms) rows.old many row) ≡ chosen_type (types_in forms) t v }
    ensures drew { Drew (types_in forms) rows.old many drawn.old 1 (wrap_in (types_in forms) t v (message_at (types_in forms) rows.old many row)) rows.new result.many drawn.new result.row }
    ensures under { Under (types_in forms) rows.new result.row row }
{
    let c = forms::chosen(forms, t, v);
    let p = defaultrows::parts(forms, rows, drawn, many, t, v, c, row);
    let list = p.rows;
    drawnrows::made_row(rows, p.many, row + 1, t, v, list)
}

// So many steps of growth from type `t` that end in `row`, the last step first.
pub fn grow(
    forms: Forms,
    rows: &mut [i32],
    drawn: &mut [u16; 6],
    many: usize,
    steps: u8,
    t: u8,
    row: usize,
) -> Drawn
    requires forms_fit { FormsFit forms }
    requires store { Store (types_in forms) rows.old many drawn.old }
    requires room { Room rows.old many drawn.old steps }
    requires t_in_bounds { t < length (types_in forms) }
    requires grows_by { GrowsBy (types_in forms) steps t }
    requires row_lt_many { row < many }
    requires row_value { message_type (message_at (types_in forms) rows.old many row) ≡ iterate (next_type (types_in forms)) steps t }
    ensures drew { Drew (types_in forms) rows.old many drawn.old steps (grow_from (types_in forms) steps t (message_at (types_in forms) rows.old many row)) rows.new result.many drawn.new result.row }
    ensures under { Under (types_in forms) rows.new result.row row }
{
    let growth = forms.growth;
    let mut at = row;
    let mut count = many;
    for left in (0..steps).rev() {
        let u = forms::after(forms, left, t);
        let v = growth.growing[u as usize];
        let d = wrap(forms, rows, drawn, count, u, v, at);
        at = d.row;
        count = d.many;
    }
    Drawn {
        row: at,
        many: count,
    }
}

// So many rounds of the cycle of type `t`, from `t` to `t`, that end in `row`.
pub fn rounds(
    forms: Forms,
    rows: &mut [i32],
    drawn: &mut [u16; 6],
    many: usize,
    turns: usize,
    t: u8,
    row: usize,
) -> Drawn
    requires forms_fit { FormsFit forms }
    requires store { Store (types_in forms) rows.old many drawn.old }
    requires room { Room rows.old many drawn.old (turns * period_of (types_in forms) t) }
    requires t_in_bounds { t < length (types_in forms) }
    requires cyclic { Cyclic (types_in forms) t }
    requires t_value { iterate (next_type (types_in forms)) (period_of (types_in forms) t) t ≡ t }
    requires row_lt_many { row < many }
    requires row_value { message_type (message_at (types_in forms) rows.old many row) ≡ t }
    ensures drew { Drew (types_in forms) rows.old many drawn.old (turns * period_of (types_in forms) t) (grow_from (types_in forms) (turns * period_of (types_in forms) t) t (message_at (types_in forms) rows.old many row)) rows.new result.many drawn.new result.row }
    ensures under { Under (types_in forms) rows.new result.row row }
{
    let growth = forms.growth;
    let period = growth.period[t as usize];
    let mut at = row;
    let mut count = many;
    for _ in 0..turns {
        let d = grow(forms, rows, drawn, count, period, t, at);
        at = d.row;
        count = d.many;
    }
    Drawn {
        row: at,
        many: count,
    }
}
