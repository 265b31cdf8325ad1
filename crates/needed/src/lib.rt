// The classes of an open node that get a message: those of rows, and of parts of what gets one.
#![tactic(auto)]

ghost use Rattle.std.specs.Prelude.{◌≡◌, true, false, not, ◌<◌, ◌≤◌, eqb, get_or, set};
ghost use Rattle.std.specs.declared.option.Option.TheVariants.{Some};
ghost use Rattle.guard.specs.Closure.{class_of};
ghost use Rattle.arrays.specs.Slots.{active, many_at};
ghost use Rattle.needed.specs.Needed.{AllFollowed, Followed, Leads, Marks, PartMarked, Pass, UpTo, no_marks, own_class, row_marks};

use classes::State;
use slots::Shapes;

// Marks are 0 for marked and 1 for not.

// Whether the parts of a term's class are to be marked: it is marked, or is the one to start from.
fn leads(state: &State, marks: &[u8; 96], start: Option<u8>, x: u8) -> bool
    requires { x < 96 }
    ensures yes { result ≡ true → Leads start marks.now (class_of state.now x) }
    ensures no { result ≡ false → ¬ Leads start marks.now (class_of state.now x) }
{
    let class = state.class_of(x);
    start == Some(class) || marks[class as usize] == 0
}

// Marks the class of a term; true if it was not marked.
fn mark(state: &State, marks: &mut [u8; 96], x: u8) -> bool
    requires { x < 96 }
    ensures value { result ≡ not (eqb (get_or marks.old (class_of state.now x) 0) 0) }
    ensures marks_after { marks.new ≡ set marks.old (class_of state.now x) 0 }
{
    let c = state.class_of(x) as usize;
    let new = marks[c] != 0;
    marks[c] = 0;
    new
}

fn mark_rows(state: &State, rows: usize, marks: &mut [u8; 96])
    requires { rows ≤ 24 }
    ensures { marks.new ≡ row_marks state.now.classes rows marks.old }
{
    for i in 0..rows {
        mark(state, marks, i as u8);
    }
}

// Marks the parts of shape `k`, which are to be marked; true if one was not.
fn mark_parts(
    state: &State,
    shapes: &Shapes,
    start: Option<u8>,
    marks: &mut [u8; 96],
    k: usize,
) -> bool
    requires k_bound { k < 30 }
    requires k_value { active shapes.now.slots state.now k ≡ true }
    requires leads { Leads start marks.old (own_class shapes.now.slots state.now k) }
    ensures { Pass shapes.now.slots state.now start (UpTo (PartMarked shapes.now.slots state.now k) (many_at shapes.now.slots k)) marks.old marks.new result }
{
    let many = shapes.many(k);
    let mut changed = false;
    for p in 0..many {
        changed |= mark(state, marks, shapes.part(k, p));
    }
    changed
}

// Marks the parts of shape `k` if it is there and they are to be marked.
fn follow(state: &State, shapes: &Shapes, start: Option<u8>, marks: &mut [u8; 96], k: usize) -> bool
    requires { k < 30 }
    ensures { Pass shapes.now.slots state.now start (Followed shapes.now.slots state.now start k) marks.old marks.new result }
{
    if !shapes.active(state, k) {
        return false;
    }
    if !leads(state, marks, start, shapes.owner(k)) {
        return false;
    }
    mark_parts(state, shapes, start, marks, k)
}

// One round over all shapes; true if a class was marked.
fn follow_all(state: &State, shapes: &Shapes, start: Option<u8>, marks: &mut [u8; 96]) -> bool
    ensures { Pass shapes.now.slots state.now start (UpTo (Followed shapes.now.slots state.now start) 30) marks.old marks.new result }
{
    let mut any = false;
    for k in 0..30 {
        any |= follow(state, shapes, start, marks, k);
    }
    any
}

// Marks the parts of class `start`, if there is one, and of all marked classes, until nothing is new.
pub fn follow_parts(state: &State, shapes: &Shapes, start: Option<u8>, marks: &mut [u8; 96])
    ensures { AllFollowed shapes.now.slots state.now start marks.old marks.new }
{
    while follow_all(state, shapes, start, marks) {}
}

// The parts of a class, and the parts of these: each is marked, and no other class.
#[tactic(auto, unfolding(crate::specs::Needed::no_marks))]
pub fn parts_of(state: &State, shapes: &Shapes, class: u8) -> [u8; 96]
    ensures { AllFollowed shapes.now.slots state.now (Some class) no_marks result }
{
    let mut parts = [1u8; 96];
    follow_parts(state, shapes, Some(class), &mut parts);
    parts
}

// The classes that are needed: each is marked, and no other class.
pub fn needed(state: &State, shapes: &Shapes, rows: usize) -> [u8; 96]
    requires { rows ≤ 24 }
    ensures { Marks shapes.now.slots state.now rows result }
{
    state.held();
    let mut marks = [1u8; 96];
    mark_rows(state, rows, &mut marks);
    follow_parts(state, shapes, None, &mut marks);
    marks
}
