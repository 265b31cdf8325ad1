// One row drawn into the lent row buffer: of a number, or of a variant over the rows of its parts. `specs/Drawing.antt` says what a drawing
// gives.
#![tactic(auto)]

ghost use Rattle.std.specs.Prelude.{◌≡◌, map, ◌+◌, ◌*◌, ◌≤◌, ◌<◌, pos, length};
ghost use Rattle.rowstore.specs.Store.{made_row, many_after, row_found, with_row};
ghost use Rattle.drawnrows.specs.Drawing.{LowRows, NumberDrawn};

use rowstore::row_of;
use words::words_of;

// The row of a message, and how many rows there are then.
#[derive(Clone, Copy)]
pub struct Drawn {
    pub row: usize,
    pub many: usize,
}

// How many rows there are with row `r`, one of the first `many` or the next.
fn drawn_at(many: usize, r: usize) -> Drawn
    requires { many < 4096 }
    ensures row_value { result.row ≡ r }
    ensures many_value { result.many ≡ many_after many r }
{
    if r < many {
        return Drawn { row: r, many: many };
    }
    Drawn {
        row: r,
        many: many + 1,
    }
}

// Number `z` of type `t`.
pub fn number_row(rows: &mut [i32], many: usize, t: u8, z: i64) -> Drawn
    requires many_bound { many < 4096 }
    requires many_in_bounds { 4 * many + 4 ≤ length rows.old }
    ensures { NumberDrawn rows.old many t z rows.new result.many result.row }
{
    let tag = -1 - t as i32;
    let w = words_of(z);
    let r = row_of(rows, 0, many, tag, w.low, w.high, 0);
    drawn_at(many, r)
}

// Variant `v` of type `t` over the rows of its parts, zeros behind, looked for from row `start` on: law `drew-over`.
pub fn made_row(
    rows: &mut [i32],
    many: usize,
    start: usize,
    t: u8,
    v: u8,
    parts: [usize; 3],
) -> Drawn
    requires many_bound { many < 4096 }
    requires many_in_bounds { 4 * many + 4 ≤ length rows.old }
    requires low_rows { LowRows parts }
    ensures row_value { result.row ≡ row_found rows.old start many (made_row t v (map pos parts)) }
    ensures rows_after { rows.new ≡ with_row rows.old many result.row (made_row t v (map pos parts)) }
    ensures many_value { result.many ≡ many_after many result.row }
{
    let tag = (16 * t as usize + v as usize) as i32;
    let a = parts[0] as i32;
    let b = parts[1] as i32;
    let c = parts[2] as i32;
    let r = row_of(rows, start, many, tag, a, b, c);
    drawn_at(many, r)
}
