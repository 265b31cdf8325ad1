// The root of a search: what the search looks at, from the tables of a guard that a reader took, and the state that it begins with.
// `specs/Roots.antt` says what they are.
#![tactic(auto)]

ghost use Rattle.std.specs.Prelude.{◌≡◌};
ghost use Rattle.problem.specs.Columns.{problem_by};
ghost use Rattle.roots.specs.Guards.{GuardsTables};
ghost use Rattle.roots.specs.Roots.{IsRoot};

use classes::State;
use constants::Constants;
use instance::Instance;
use labelled::Sorts;
use problem::Problem;
use reader::Tables;
use slots::{Reads, Shapes};

// What a search begins with.
#[derive(Clone, Copy)]
pub struct Root {
    pub instance: Instance,
    pub reads: Reads,
    pub state: State,
}

// The root of an accepted guard, from its tables and its problem.
pub fn root_of(tables: &Tables, problem: &Problem) -> Root
    requires guards_tables { GuardsTables tables.now }
    requires problem_value { problem.now ≡ problem_by tables.now }
    ensures { IsRoot tables.now result }
{
    let instance = Instance {
        shapes: Shapes {
            slots: problem.shapes,
        },
        sorts: Sorts::new(problem.sorts, problem.full, problem.fieldless),
        constants: Constants {
            sorts: problem.constants,
            values: tables.rows.values,
        },
        lines: tables.literals,
    };
    Root {
        instance,
        reads: Reads {
            slots: problem.reads,
        },
        state: given::begin(&instance),
    }
}
