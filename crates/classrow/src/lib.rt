// The row of a class of an open node that something fixes: a shape over the rows of its parts, a constant, or one fieldless variant.
#![tactic(auto)]

ghost use Rattle.std.specs.Prelude.{◌≡◌, ◌+◌, ◌*◌, ◌-◌, ◌≤◌, ◌<◌, length, get_or};
ghost use Rattle.classrow.specs.ClassRow.{AtLow, ConstantDrawn, FixedDrawn, ShapeDrawn, SingleDrawn, part_row};

use classes::State;
use drawnrows::{Drawn, made_row, number_row};
use leaf::Leaf;
use slots::Shapes;
use unlikeconstants::first_constant;

// The row of class `c`; 0 if it has none, as the definitions have it: where it is called, the class has one.
pub fn row_at(at: &[u16; 96], c: u8) -> usize
    requires { c < 96 }
    ensures { result ≡ get_or at.now c 0 - 1 }
{
    at[c as usize].saturating_sub(1) as usize
}

// The row of part `p` of shape `k`; 0 if there is no such part, as a row has it in a place past its parts.
#[tactic(auto, using(slots::proofs::Fits::slots_fit, crate::proofs::FixedLaws::part_missing, crate::proofs::FixedLaws::part_there))]
fn part_row(shapes: &Shapes, state: &State, at: &[u16; 96], k: usize, p: usize) -> usize
    requires { (k < 30) × (p < 3) }
    ensures { result ≡ part_row shapes.now.slots state.now.classes at.now k p }
{
    if p >= shapes.many(k) {
        return 0;
    }
    row_at(at, state.class_of(shapes.part(k, p)))
}

// Shape `k` over the rows of its parts.
fn shape_row(leaf: &Leaf, at: &[u16; 96], rows: &mut [i32], many: usize, k: usize) -> Drawn
    requires k_bound { k < 30 }
    requires at_low { AtLow at.now }
    requires many_bound { many < 4096 }
    requires many_in_bounds { 4 * many + 4 ≤ length rows.old }
    ensures { ShapeDrawn leaf.now at.now rows.old many k rows.new result.many result.row }
{
    let kind = leaf.shapes.kind(k).saturating_sub(1);
    let a = part_row(&leaf.shapes, &leaf.state, at, k, 0);
    let b = part_row(&leaf.shapes, &leaf.state, at, k, 1);
    let c = part_row(&leaf.shapes, &leaf.state, at, k, 2);
    made_row(
        rows,
        many,
        0,
        (kind / 16) as u8,
        (kind % 16) as u8,
        [a, b, c],
    )
}

// The constant in slot `k`.
fn constant_row(leaf: &Leaf, rows: &mut [i32], many: usize, k: usize) -> Drawn
    requires k_bound { k < 30 }
    requires many_bound { many < 4096 }
    requires many_in_bounds { 4 * many + 4 ≤ length rows.old }
    ensures { ConstantDrawn leaf.now rows.old many k rows.new result.many result.row }
{
    let t = leaf.constants.sort(k).saturating_sub(1);
    number_row(rows, many, t, leaf.constants.value(k))
}

// The fieldless variant that term `y` is of alone.
fn single_row(leaf: &Leaf, rows: &mut [i32], many: usize, y: u8) -> Drawn
    requires y_bound { y < 96 }
    requires many_bound { many < 4096 }
    requires many_in_bounds { 4 * many + 4 ≤ length rows.old }
    ensures { SingleDrawn leaf.now rows.old many y rows.new result.many result.row }
{
    let t = leaf.sorts.sorts[y as usize].saturating_sub(1);
    let v = labels::lowest(leaf.state.label_of(y));
    made_row(rows, many, 0, t, v as u8, [0, 0, 0])
}

// A class that something fixes, after all classes of lower rank.
#[tactic(auto, using(crate::proofs::FixedLaws::single_below))]
pub fn fixed_row(leaf: &Leaf, at: &[u16; 96], rows: &mut [i32], many: usize, c: u8) -> Drawn
    requires at_low { AtLow at.now }
    requires many_bound { many < 4096 }
    requires many_in_bounds { 4 * many + 4 ≤ length rows.old }
    ensures { FixedDrawn leaf.now at.now rows.old many c rows.new result.many result.row }
{
    if let Some(k) = kinds::shape_of(&leaf.state, &leaf.shapes, c) {
        return shape_row(leaf, at, rows, many, k);
    }
    if let Some(k) = first_constant(leaf.state.classes(), &leaf.constants, c) {
        return constant_row(leaf, rows, many, k);
    }
    let y = kinds::single_of(&leaf.state, &leaf.sorts, c);
    single_row(leaf, rows, many, y.unwrap_or(78))
}
