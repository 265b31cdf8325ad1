// An answer as five numbers in a lent buffer. `specs/Numbers.antt` says what they are.
#![tactic(auto)]

ghost use Rattle.std.specs.Prelude.{◌≡◌, ◌∷◌, ◌++◌, ◌≤◌, length, drop};
ghost use Rattle.answernumbers.specs.Numbers.{answer_numbers};

use guard::Answer;

// Five numbers in front of the buffer.
fn put(numbers: &mut [u32], verdict: u32, number: u32, rows: u32, first: u32, second: u32)
    requires { 5 ≤ length numbers.old }
    ensures { numbers.new ≡ verdict ∷ number ∷ rows ∷ first ∷ second ∷ drop 5 numbers.old }
{
    numbers[0] = verdict;
    numbers[1] = number;
    numbers[2] = rows;
    numbers[3] = first;
    numbers[4] = second;
}

// The numbers of an answer in front of the buffer.
pub fn put_answer(numbers: &mut [u32], answer: Answer)
    requires { 5 ≤ length numbers.old }
    ensures { numbers.new ≡ answer_numbers answer ++ drop 5 numbers.old }
{
    match answer {
        Answer::Refused { question } => put(numbers, 0, question, 0, 0, 0),
        Answer::Sat {
            nodes,
            first_splits,
            second_splits,
            rows,
        } => put(numbers, 1, nodes, rows, first_splits, second_splits),
        Answer::Unsat {
            nodes,
            first_splits,
            second_splits,
        } => put(numbers, 2, nodes, 0, first_splits, second_splits),
        Answer::Spent {
            budget,
            first_splits,
            second_splits,
        } => put(numbers, 3, budget, 0, first_splits, second_splits),
    }
}
