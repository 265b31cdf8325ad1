// Rows for the classes of an open node that something fixes. They are drawn in order of rank, so the rows of the parts are there. `specs/`
// says what is drawn.
#![tactic(auto)]

ghost use Rattle.std.specs.Prelude.{◌≡◌, suc, ◌≤◌, ◌<◌};
ghost use Rattle.fixedrows.specs.Stage.{Advances, DueNow, Noted, Staged, is_due};

use leaf::Leaf;

// Draws class `c` and notes its row.
fn draw_class(leaf: &Leaf, at: &mut [u16; 96], rows: &mut [i32], many: usize, c: u8) -> usize
    requires c_bound { c < 78 }
    requires due_now { DueNow leaf.now at.old rows.old many c }
    ensures { Noted leaf.now at.old rows.old many c at.new rows.new result }
{
    let d = classrow::fixed_row(leaf, at, rows, many, c);
    at[c as usize] = (d.row + 1) as u16;
    d.many
}

// Whether class `c` is to be drawn among those of rank `n`.
#[tactic(auto, unfolding(crate::specs::Stage::is_due))]
fn is_due(leaf: &Leaf, at: &[u16; 96], n: u8, c: u8) -> bool
    requires { c < 96 }
    ensures { result ≡ is_due leaf.now.marks leaf.now.ranks at.now n c }
{
    leaf.marks[c as usize] == 0 && at[c as usize] == 0 && leaf.ranks[c as usize] == n
}

// The classes of rank `n` that have no row yet.
fn draw_rank(leaf: &Leaf, at: &mut [u16; 96], rows: &mut [i32], many: usize, n: u8) -> usize
    requires { Staged leaf.now at.old rows.old many n 0 }
    ensures { Advances leaf.now at.old rows.old many n 0 at.new rows.new result (suc n) 0 }
{
    let mut count = many;
    for c in 0..78 {
        if is_due(leaf, at, n, c) {
            count = draw_class(leaf, at, rows, count, c);
        }
    }
    count
}

// All classes that have no row yet, in order of rank, where `many` rows are there and the free classes have theirs. The
// number of rows then.
pub fn fixed_rows(leaf: &Leaf, at: &mut [u16; 96], rows: &mut [i32], many: usize, most: u8) -> usize
    requires most_bound { most ≤ 31 }
    requires staged { Staged leaf.now at.old rows.old many 0 0 }
    ensures { Advances leaf.now at.old rows.old many 0 0 at.new rows.new result (suc most) 0 }
{
    let mut count = many;
    for n in 0..most + 1 {
        count = draw_rank(leaf, at, rows, count, n);
    }
    count
}
