// The search of a guard from its root, and what it finds. `specs/Finds.antt` says what that is.
#![tactic(auto)]

ghost use Rattle.std.specs.Prelude.{◌≡◌};
ghost use Rattle.problem.specs.Columns.{problem_by};
ghost use Rattle.roots.specs.Guards.{GuardsTables};
ghost use Rattle.rootsearch.specs.Finds.{Finds};

use classes::State;
use problem::Problem;
use reader::Tables;
use tallies::{Outcome, Tally};

// How the search of a guard ends, with what is left of the budget: at an open node, whose closure comes with it, with all branches
// closed, or with the budget spent.
#[derive(Clone, Copy)]
pub enum Found {
    Open(State, Tally),
    Closed(Tally),
    Spent(Tally),
}

// The search of an accepted guard with its problem.
pub fn search_guard(tables: &Tables, problem: &Problem, budget: u32) -> Found
    requires guards_tables { GuardsTables tables.now }
    requires problem_value { problem.now ≡ problem_by tables.now }
    ensures { Finds tables.now budget result }
{
    let root = roots::root_of(tables, problem);
    let mut state = root.state;
    let tally = Tally {
        left: budget,
        first: 0,
        second: 0,
    };
    match search::visit(&mut state, &root.instance, &root.reads, tally) {
        Outcome::Open(t) => Found::Open(state, t),
        Outcome::Closed(t) => Found::Closed(t),
        Outcome::Spent(t) => Found::Spent(t),
    }
}
