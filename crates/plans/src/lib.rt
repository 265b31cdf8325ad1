// What is chosen for the free classes of an open node: their types, variants and fresh numbers, and the highest rank.
#![tactic(auto)]

ghost use Rattle.std.specs.Prelude.{◌≡◌, ◌<◌, ◌≤◌, ◌+◌, get_or};
ghost use Rattle.tables.specs.Layout.{TypesInRange, types_of};
ghost use Rattle.loops.specs.Lowest.{Finds};
ghost use Rattle.plans.specs.Chosen.{free_at, held_at, higher_at, highest_of, is_member, sort_in, variant_entry, variant_in};
ghost use Rattle.plans.specs.Fresh.{next_fresh, taken, taken_at};

use classes::State;
use constants::Constants;
use labelled::Sorts;
use slots::Shapes;
use tables::TypeTable;
use unlikeconstants::first_constant;

// ---- types

#[tactic(auto, unfolding(crate::specs::Chosen::is_member))]
fn is_member(classes: &[u8; 96], sorts: &[u8; 96], c: u8, y: usize) -> bool
    requires { y < 78 }
    ensures { result ≡ is_member classes.now sorts.now c y }
{
    sorts[y] != 0 && classes::class_of(classes, y as u8) == c
}

// The lowest term of class `c`.
#[tactic(auto, using(loops::proofs::Loops::finds))]
fn term_in(classes: &[u8; 96], sorts: &[u8; 96], c: u8) -> Option<usize>
    ensures { Finds (is_member classes.now sorts.now c) 78 result }
{
    loops::lowest(78, |y| is_member(classes, sorts, c, y))
}

// The type of class `c`, plus one.
#[tactic(auto, using(crate::proofs::CodeTests::member_low, crate::proofs::CodeTests::sort_there))]
pub fn sort_for(classes: &[u8; 96], sorts: &[u8; 96], c: u8) -> u8
    ensures { result ≡ sort_in classes.now sorts.now c }
{
    sorts[term_in(classes, sorts, c).unwrap_or(78)]
}

// ---- free classes

// Whether class `c` gets a message, and nothing fixes it.
#[tactic(auto, using(crate::proofs::CodeTests::finds_none), unfolding(crate::specs::Chosen::free_at, crate::specs::Chosen::is_marked, kinds::specs::Found::shape_of, kinds::specs::Found::constant_of, kinds::specs::Found::single_of))]
pub fn is_free(
    state: &State,
    shapes: &Shapes,
    sorts: &Sorts,
    constants: &Constants,
    marks: &[u8; 96],
    c: u8,
) -> bool
    requires { c < 96 }
    ensures { result ≡ free_at shapes.now.slots sorts.now.sorts sorts.now.fieldless constants.now.sorts marks.now state.now c }
{
    marks[c as usize] == 0
        && kinds::shape_of(state, shapes, c).is_none()
        && first_constant(state.classes(), constants, c).is_none()
        && kinds::single_of(state, sorts, c).is_none()
}

// ---- variants

// Whether variant `v` is in the label and has fields. Those of its type stand from place `start` on.
#[tactic(auto, unfolding(crate::specs::Chosen::held_at))]
fn is_held(arities: &[u8; 48], start: u8, label: u16, v: usize) -> bool
    requires { (v < 16) × (start + v < 48) }
    ensures { result ≡ held_at arities.now start label v }
{
    !labels::lacks(label, v as u32) && 0 < arities[start as usize + v]
}

// The lowest variant of type `t` with fields in the label; the number of variants if there is none, as the definition has it.
#[tactic(auto, using(loops::proofs::Loops::finds, crate::proofs::CodeTests::entry_small, crate::proofs::CodeTests::entry_found))]
pub fn variant_in(variants: &[u8; 6], first: &[u8; 6], arities: &[u8; 48], label: u16, t: u8) -> u8
    requires t_bound { t < 6 }
    requires t_bound_2 { get_or variants.now t 0 ≤ 16 }
    requires t_bound_3 { get_or first.now t 0 + get_or variants.now t 0 ≤ 48 }
    ensures { result ≡ variant_entry variants.now first.now arities.now label t }
{
    let many = variants[t as usize] as usize;
    let start = first[t as usize];
    loops::lowest(many, |v| is_held(arities, start, label, v)).unwrap_or(many) as u8
}

// The same for a type of the table.
pub fn variant_for(table: &TypeTable, label: u16, t: u8) -> u8
    requires types_in_range { TypesInRange table.now }
    requires t_lt_many { t < table.now.many }
    ensures { result ≡ variant_in (types_of table.now) label t }
{
    variant_in(&table.variants, &table.first, &table.arities, label, t)
}

// ---- fresh numbers

#[tactic(auto, using(constants::proofs::ConstantTests::same_bits), unfolding(crate::specs::Fresh::taken_at))]
fn is_taken_at(constants: &Constants, z: u32, k: usize) -> bool
    requires { (k < 30) × (z < 65536) }
    ensures { result ≡ taken_at constants.now.sorts constants.now.values z k }
{
    constants.sort(k) != 0 && constants.value(k) == z as i64
}

#[tactic(auto, using(crate::proofs::CodeTests::taken_passes))]
fn is_taken(constants: &Constants, z: u32) -> bool
    requires { z < 65536 }
    ensures { result ≡ taken constants.now.sorts constants.now.values z }
{
    loops::any(30, |k| is_taken_at(constants, z, k))
}

// The lowest number above `last` that no constant has.
#[tactic(auto, using(loops::proofs::Loops::finds, crate::proofs::CodeTests::fresh_few, crate::proofs::CodeTests::fresh_found))]
pub fn next_fresh(constants: &Constants, last: u32) -> u32
    requires { last ≤ 4096 }
    ensures { result ≡ next_fresh constants.now.sorts constants.now.values last }
{
    let first = last + 1;
    let past = loops::lowest(30, |k| !is_taken(constants, first + k as u32)).unwrap_or(30);
    first + past as u32
}

// ---- ranks

fn higher(marks: &[u8; 96], ranks: &[u8; 96], c: usize, most: u8) -> u8
    requires { c < 96 }
    ensures { result ≡ higher_at marks.now ranks.now c most }
{
    if marks[c] != 0 {
        return most;
    }
    most.max(ranks[c])
}

// The highest rank of a class that gets a message; 0 if there is none.
pub fn highest_rank(marks: &[u8; 96], ranks: &[u8; 96]) -> u8
    ensures { result ≡ highest_of marks.now ranks.now }
{
    let mut most: u8 = 0;
    for c in 0..78 {
        most = higher(marks, ranks, c, most);
    }
    most
}
