// Where in the list of a guard's numbers the values of its constants stand.
#![tactic(auto)]

ghost use Rattle.std.specs.Prelude.{◌≡◌, ◌<◌};
ghost use Rattle.valuemarks.specs.Marks.{GuardsRows, MarksValues, RowNumbers, Unmarked};

use tables::{RowTable, TypeTable};

// How many numbers a row has, its kind too.
fn row_numbers(types: &TypeTable, rows: &RowTable, r: usize) -> usize
    requires guards_rows { GuardsRows types.now rows.now }
    requires r_lt_many { r < rows.now.many }
    ensures { RowNumbers types.now rows.now r result }
{
    match rows.kinds[r] {
        0 => 2,
        1 => 3,
        3 => 4,
        _ => {
            let t = rows.types[r] as usize;
            let v = rows.variants[r] as usize;
            let place = types.first[t] as usize + v;
            3 + types.arities[place] as usize
        }
    }
}

// Marks the places of the values with 1. The rows end before place `end`, and are looked at from the last one on.
pub fn mark_values(types: &TypeTable, rows: &RowTable, end: usize, marks: &mut [u8; 640])
    requires { Unmarked types.now rows.now end marks.old }
    ensures { MarksValues types.now rows.now end marks.new }
{
    let mut at = end;
    for r in (0..rows.many).rev() {
        if rows.kinds[r] == 1 {
            marks[at - 1] = 1;
        }
        at -= row_numbers(types, rows, r);
    }
}
