// The answer at an open node: SAT with messages. `specs/Open.antt` says what it gives.
#![tactic(auto)]

ghost use Rattle.std.specs.Prelude.{◌≡◌};
ghost use Rattle.problem.specs.Columns.{problem_by};
ghost use Rattle.messages.specs.Messages.{OpenTables, RoomFor};
ghost use Rattle.openanswer.specs.Open.{AnswersOpen};

use classes::State;
use cleared::clear;
use guard::Answer;
use problem::Problem;
use reader::Tables;

// The answer at an open node that the search found with so many nodes and splits: messages are drawn, and what lies past the last
// row and the last place is cleared.
#[tactic(auto, using(crate::proofs::OpenAnswer::drawn_fits))]
pub fn answer_open(
    tables: &Tables,
    problem: &Problem,
    state: &State,
    nodes: u32,
    first: u32,
    second: u32,
    rows: &mut [i32],
    places: &mut [i32],
) -> Answer
    requires open_tables { OpenTables tables.now state.now }
    requires problem_value { problem.now ≡ problem_by tables.now }
    requires room_for { RoomFor tables.now rows.old places.old }
    ensures { AnswersOpen tables.now state.now (record { nodes = nodes; first = first; second = second }) rows.old places.old result rows.new places.new }
{
    let n = messages::draw(tables, problem, state, rows, places);
    let last = 4 * n;
    clear(&mut rows[last..]);
    let terms = tables.rows.many;
    clear(&mut places[terms..]);
    let many = n as u32;
    Answer::Sat {
        nodes: nodes,
        first_splits: first,
        second_splits: second,
        rows: many,
    }
}
