// Rows for the free classes of an open node, in order: each class gets the message that its plan says. Classes whose growth
// goes round one cycle make one chain (`chains`). `specs/Free.antt` says what is drawn.
#![tactic(auto)]

ghost use Rattle.std.specs.Prelude.{◌≡◌, true, false, suc, ◌+◌, ◌*◌, ◌-◌, ◌≤◌, ◌<◌, pos, length};
ghost use Rattle.guard.specs.Types.{is_number};
ghost use Rattle.rowstore.specs.Store.{Grown};
ghost use Rattle.growth.proofs.Growth.{chosen_type, steps_to_number};
ghost use Rattle.growth.proofs.Plans.{Plan.into, planned_message};
ghost use Rattle.forms.specs.Forms.{FormsFit, types_in};
ghost use Rattle.drawnrows.specs.Drawing.{Drew, NumberDrawn, Room, Store};
ghost use Rattle.plans.specs.Fresh.{next_fresh};
ghost use Rattle.plans.specs.Plans.{highest_rank, is_free, type_for};
ghost use Rattle.leaf.specs.Leaf.{open_state};
ghost use Rattle.leaf.specs.Sheet.{Enough};
ghost use Rattle.chains.specs.Chains.{Starts};
ghost use Rattle.freerows.specs.Free.{Blank, ClassFits, FreeDrawn, FreeFits, FreeNow, FreeSheet, FreeStage};

use forms::Forms;
use leaf::Leaf;

// The row of a free class, how many rows there are then, and the last fresh number used.
#[derive(Clone, Copy)]
struct Planned {
    row: usize,
    many: usize,
    last: u32,
}

// How many rows there are, and the last fresh number used.
#[derive(Clone, Copy)]
struct Counted {
    many: usize,
    last: u32,
}

// The next fresh number, of number type `t`.
fn number_planned(leaf: &Leaf, rows: &mut [i32], many: usize, last: u32, t: u8) -> Planned
    requires many_bound { many < 4096 }
    requires many_in_bounds { 4 * many + 4 ≤ length rows.old }
    requires last_bound { last ≤ 4096 }
    ensures last_value { result.last ≡ next_fresh leaf.now.constants.sorts leaf.now.constants.values last }
    ensures number_drawn { NumberDrawn rows.old many t (pos result.last) rows.new result.many result.row }
{
    let z = plans::next_fresh(&leaf.constants, last);
    let d = drawnrows::number_row(rows, many, t, z as i64);
    Planned {
        row: d.row,
        many: d.many,
        last: z,
    }
}

// Variant `v` of type `t` over growth to the next fresh number.
fn ended_planned(
    leaf: &Leaf,
    forms: &Forms,
    rows: &mut [i32],
    drawn: &mut [u16; 6],
    many: usize,
    last: u32,
    t: u8,
    v: u8,
    s: u8,
) -> Planned
    requires forms_fit { FormsFit forms.now }
    requires store { Store (types_in forms.now) rows.old many drawn.old }
    requires room { Room rows.old many drawn.old (3 * length (types_in forms.now) - 1) }
    requires last_bound { last ≤ 4096 }
    requires starts { Starts (types_in forms.now) t v s }
    requires s_in_bounds { steps_to_number (types_in forms.now) s < length (types_in forms.now) }
    ensures last_value { result.last ≡ next_fresh leaf.now.constants.sorts leaf.now.constants.values last }
    ensures drew { Drew (types_in forms.now) rows.old many drawn.old (3 * length (types_in forms.now) - 1) (planned_message (types_in forms.now) t (into v (steps_to_number (types_in forms.now) (chosen_type (types_in forms.now) t v)) (pos result.last))) rows.new result.many drawn.new result.row }
{
    let z = plans::next_fresh(&leaf.constants, last);
    let d = chains::ended_row(*forms, rows, drawn, many, t, v, s, z as i64);
    Planned {
        row: d.row,
        many: d.many,
        last: z,
    }
}

// The type of free class `c`.
fn type_of(leaf: &Leaf, forms: &Forms, c: u8) -> u8
    requires { ClassFits (open_state (types_in forms.now) leaf.now) c }
    ensures { result ≡ type_for (open_state (types_in forms.now) leaf.now) c }
{
    plans::sort_for(leaf.state.classes(), &leaf.sorts.sorts, c) - 1
}

// Free class `c` of variant type `t`.
fn variant_planned(
    leaf: &Leaf,
    forms: &Forms,
    rows: &mut [i32],
    drawn: &mut [u16; 6],
    tops: &mut [u16; 6],
    many: usize,
    most: u8,
    last: u32,
    c: u8,
    t: u8,
) -> Planned
    requires forms_fit { FormsFit forms.now }
    requires free_now { FreeNow (open_state (types_in forms.now) leaf.now) c rows.old many drawn.old tops.old most last }
    requires t_value { t ≡ type_for (open_state (types_in forms.now) leaf.now) c }
    requires t_value_2 { is_number (types_in forms.now) t ≡ false }
    ensures { FreeDrawn (open_state (types_in forms.now) leaf.now) c rows.old many drawn.old rows.new result.many drawn.new tops.new result.last result.row }
{
    let v = plans::variant_for(&forms.table, leaf.state.class_label(c), t);
    let s = chains::start(*forms, t, v);
    if (forms.growth.steps[s as usize] as usize) < forms.table.many {
        return ended_planned(leaf, forms, rows, drawn, many, last, t, v, s);
    }
    let d = chains::circled_row(*forms, rows, drawn, tops, many, most, t, v, s);
    Planned {
        row: d.row,
        many: d.many,
        last,
    }
}

// Free class `c`.
fn free_row(
    leaf: &Leaf,
    forms: &Forms,
    rows: &mut [i32],
    drawn: &mut [u16; 6],
    tops: &mut [u16; 6],
    many: usize,
    most: u8,
    last: u32,
    c: u8,
) -> Planned
    requires forms_fit { FormsFit forms.now }
    requires free_now { FreeNow (open_state (types_in forms.now) leaf.now) c rows.old many drawn.old tops.old most last }
    ensures { FreeDrawn (open_state (types_in forms.now) leaf.now) c rows.old many drawn.old rows.new result.many drawn.new tops.new result.last result.row }
{
    let t = type_of(leaf, forms, c);
    if forms.table.variants[t as usize] == 0 {
        return number_planned(leaf, rows, many, last, t);
    }
    variant_planned(leaf, forms, rows, drawn, tops, many, most, last, c, t)
}

// Draws free class `c`, and notes its row.
fn draw_free(
    leaf: &Leaf,
    forms: &Forms,
    at: &mut [u16; 96],
    rows: &mut [i32],
    drawn: &mut [u16; 6],
    tops: &mut [u16; 6],
    many: usize,
    most: u8,
    last: u32,
    c: u8,
) -> Counted
    requires c_bound { c < 78 }
    requires forms_fit { FormsFit forms.now }
    requires free_fits { FreeFits (open_state (types_in forms.now) leaf.now) }
    requires most_value { most ≡ highest_rank (open_state (types_in forms.now) leaf.now) }
    requires free_stage { FreeStage (open_state (types_in forms.now) leaf.now) c at.old rows.old many drawn.old tops.old last }
    requires c_value { is_free (open_state (types_in forms.now) leaf.now) c ≡ true }
    ensures free_stage_2 { FreeStage (open_state (types_in forms.now) leaf.now) (suc c) at.new rows.new result.many drawn.new tops.new result.last }
    ensures grown { Grown rows.old many rows.new result.many }
{
    let d = free_row(leaf, forms, rows, drawn, tops, many, most, last, c);
    at[c as usize] = (d.row + 1) as u16;
    Counted {
        many: d.many,
        last: d.last,
    }
}

// All free classes, into a buffer of rows that is taken as empty. `at` says of each class 0, or one more than its row;
// `most` is the highest rank. The number of rows then.
pub fn free_rows(
    leaf: &Leaf,
    forms: &Forms,
    at: &mut [u16; 96],
    rows: &mut [i32],
    most: u8,
) -> usize
    requires forms_fit { FormsFit forms.now }
    requires free_fits { FreeFits (open_state (types_in forms.now) leaf.now) }
    requires blank { Blank at.old }
    requires most_value { most ≡ highest_rank (open_state (types_in forms.now) leaf.now) }
    requires enough { Enough (open_state (types_in forms.now) leaf.now) rows.old }
    ensures { FreeSheet (types_in forms.now) leaf.now rows.old at.new rows.new result }
{
    let mut drawn = [0u16; 6];
    let mut tops = [0u16; 6];
    let mut many: usize = 0;
    let mut last: u32 = 0;
    for c in 0..78 {
        if plans::is_free(
            &leaf.state,
            &leaf.shapes,
            &leaf.sorts,
            &leaf.constants,
            &leaf.marks,
            c,
        ) {
            let d = draw_free(
                leaf, forms, at, rows, &mut drawn, &mut tops, many, most, last, c,
            );
            many = d.many;
            last = d.last;
        }
    }
    many
}
