// The answer to the tables of a guard: the search, and what it leaves in the buffers. `specs/Searched.antt` says what it gives.
#![tactic(auto)]

ghost use Rattle.messages.specs.Messages.{RoomFor};
ghost use Rattle.roots.specs.Guards.{GuardsTables};
ghost use Rattle.searchanswer.specs.Searched.{AnswersTables};

use cleared::clear_both;
use guard::Answer;
use openanswer::answer_open;
use reader::Tables;
use rootsearch::Found;

// The answer to the tables of a guard, with the problem made once.
pub fn answer_search(tables: &Tables, budget: u32, rows: &mut [i32], places: &mut [i32]) -> Answer
    requires guards_tables { GuardsTables tables.now }
    requires room_for { RoomFor tables.now rows.old places.old }
    ensures { AnswersTables tables.now budget rows.old places.old result rows.new places.new }
{
    let problem = problem::problem_of(*tables);
    match rootsearch::search_guard(tables, &problem, budget) {
        Found::Open(state, t) => answer_open(
            tables,
            &problem,
            &state,
            budget - t.left,
            t.first,
            t.second,
            rows,
            places,
        ),
        Found::Closed(t) => {
            let nodes = budget - t.left;
            clear_both(rows, places);
            Answer::Unsat {
                nodes: nodes,
                first_splits: t.first,
                second_splits: t.second,
            }
        }
        Found::Spent(t) => {
            clear_both(rows, places);
            Answer::Spent {
                budget: budget,
                first_splits: t.first,
                second_splits: t.second,
            }
        }
    }
}
