// The second call: as the desk's one call, and after UNSAT the record of the search. `specs/Explains.antt` says what it gives.
#![tactic(auto)]

ghost use Rattle.std.specs.Prelude.{◌≡◌};
ghost use Rattle.guard.specs.Limits.{base};
ghost use Rattle.explain.specs.Explains.{Explains, RecordsFile, Taken, is_unsat};

use guard::Answer;

// The answer, and the number of bytes of the record; there is none but after UNSAT.
#[derive(Clone, Copy)]
pub struct Explained {
    pub answer: Answer,
    pub bytes: usize,
}

fn is_unsat(a: Answer) -> bool
    ensures { result ≡ is_unsat a }
{
    matches!(a, Answer::Unsat { .. })
}

// The record of an accepted file: how many bytes it has, or none where it outgrows the buffer.
fn write_file_record(file: &[u8], record: &mut [u8]) -> Option<usize>
    requires { Taken file.now }
    ensures { RecordsFile file.now result «record».old «record».new }
{
    let tables = reader::read(file, 6, 24, 32).unwrap();
    let problem = problem::problem_of(tables);
    recordwriter::write_record(&tables, &problem, record)
}

// The answer to a guard file within a budget of nodes. After SAT the row and place buffers show messages, after UNSAT the
// record buffer begins with the record; else they are all 0.
pub fn explain(
    file: &[u8],
    budget: u32,
    rows: &mut [i32],
    places: &mut [i32],
    record: &mut [u8],
) -> Explained
    ensures { Explains base file.now budget rows.old places.old «record».old result rows.new places.new «record».new }
{
    let answer = decide::decide(file, budget, rows, places);
    if !is_unsat(answer) {
        bytebuffer::clear(record);
        return Explained { answer, bytes: 0 };
    }
    let Some(bytes) = write_file_record(file, record) else {
        return Explained {
            answer: Answer::Refused { question: 11 },
            bytes: 0,
        };
    };
    Explained { answer, bytes }
}
