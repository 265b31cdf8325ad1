// The desk's one call, with the limits of document 01, and the flight loader's, with smaller ones (document 02, #110): a guard file, a
// budget and two lent buffers to an answer. `Decides` (crate `decidewithin`) says what each gives.
#![tactic(auto)]

ghost use Rattle.guard.specs.Limits.{base};
ghost use Rattle.decidewithin.specs.CallerLimits.{loader};
ghost use Rattle.decidewithin.specs.Decides.{Decides};

use decidewithin::decide_within;
use guard::Answer;

// The answer to a guard file within a budget of nodes. After SAT the buffers show messages, else they are all 0.
pub fn decide(file: &[u8], budget: u32, rows: &mut [i32], places: &mut [i32]) -> Answer
    ensures { Decides base file.now budget rows.old places.old result rows.new places.new }
{
    decide_within(6, 24, 32, file, budget, rows, places)
}

// The same for the loader: at most 3 types, 8 terms and 8 lines, and buffers of at least 4,096 and 8 numbers.
pub fn load(file: &[u8], budget: u32, rows: &mut [i32], places: &mut [i32]) -> Answer
    ensures { Decides loader file.now budget rows.old places.old result rows.new places.new }
{
    decide_within(3, 8, 8, file, budget, rows, places)
}
