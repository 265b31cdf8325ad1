// Messages for the terms of an open node: rows in the one buffer, the row of each term in the other. `specs/` says what
// is drawn, and what it shows.
#![tactic(auto)]

ghost use Rattle.std.specs.Prelude.{◌≡◌, ◌≤◌, length};
ghost use Rattle.problem.specs.Columns.{problem_by};
ghost use Rattle.forms.specs.Forms.{FormsFit, types_in};
ghost use Rattle.leaf.specs.Leaf.{open_state};
ghost use Rattle.leaf.specs.Sheet.{Enough};
ghost use Rattle.freerows.specs.Free.{Blank, FreeFits};
ghost use Rattle.classrow.specs.ClassRow.{AtLow};
ghost use Rattle.messages.specs.Messages.{DrawsFor, OpenTables, RoomFor};
ghost use Rattle.messages.specs.Rows.{Drawable, LeafFor, PlacesSet, RowsDrawn};

use classes::State;
use constants::Constants;
use forms::Forms;
use growthtables::growth_of;
use labelled::Sorts;
use leaf::Leaf;
use problem::Problem;
use reader::Tables;
use slots::Shapes;

// What the messages are drawn from.
fn leaf_of(tables: &Tables, problem: &Problem, state: &State) -> Leaf
    requires open_tables { OpenTables tables.now state.now }
    requires problem_value { problem.now ≡ problem_by tables.now }
    ensures { LeafFor tables.now state.now result }
{
    let shapes = Shapes {
        slots: problem.shapes,
    };
    let mut ranks = [0u8; 96];
    ranks::rank_classes(state, &shapes, &mut ranks);
    Leaf {
        state: *state,
        shapes,
        sorts: Sorts::new(problem.sorts, problem.full, problem.fieldless),
        constants: Constants {
            sorts: problem.constants,
            values: tables.rows.values,
        },
        marks: needed::needed(state, &shapes, tables.rows.many),
        ranks,
    }
}

// All rows: those of free classes first, since nothing in them waits for another class.
fn draw_rows(leaf: &Leaf, forms: &Forms, at: &mut [u16; 96], rows: &mut [i32]) -> usize
    requires forms_fit { FormsFit forms.now }
    requires free_fits { FreeFits (open_state (types_in forms.now) leaf.now) }
    requires drawable { Drawable (types_in forms.now) leaf.now }
    requires blank { Blank at.old }
    requires enough { Enough (open_state (types_in forms.now) leaf.now) rows.old }
    ensures { RowsDrawn (types_in forms.now) leaf.now rows.old at.new rows.new result }
{
    let most = plans::highest_rank(&leaf.marks, &leaf.ranks);
    let many = freerows::free_rows(leaf, forms, at, rows, most);
    fixedrows::fixed_rows(leaf, at, rows, many, most)
}

// The rows of the first `many` terms.
fn set_places(state: &State, at: &[u16; 96], many: usize, places: &mut [i32])
    requires at_low { AtLow at.now }
    requires many_bound { many ≤ 24 }
    requires many_in_bounds { many ≤ length places.old }
    ensures { PlacesSet state.now.classes at.now many places.old places.new }
{
    for i in 0..many {
        places[i] = classrow::row_at(at, state.class_of(i as u8)) as i32;
    }
}

// Rows of messages for the terms of an open node, and the row of each term; the number of rows. What lies past the last
// row and the last place stays.
pub fn draw(
    tables: &Tables,
    problem: &Problem,
    state: &State,
    rows: &mut [i32],
    places: &mut [i32],
) -> usize
    requires open_tables { OpenTables tables.now state.now }
    requires problem_value { problem.now ≡ problem_by tables.now }
    requires room_for { RoomFor tables.now rows.old places.old }
    ensures { DrawsFor tables.now state.now rows.old places.old result rows.new places.new }
{
    state.held();
    let leaf = leaf_of(tables, problem, state);
    let forms = Forms {
        table: tables.types,
        defaults: tables.defaults,
        growth: growth_of(tables.types),
    };
    let mut at = [0u16; 96];
    let many = draw_rows(&leaf, &forms, &mut at, rows);
    set_places(state, &at, tables.rows.many, places);
    many
}
