// One number for C from a count or a question. `specs/Code.antt` says which.
#![tactic(auto)]

ghost use Rattle.std.specs.Prelude.{◌≡◌, ◌≤◌, IfOk};
ghost use Rattle.returncodes.specs.Code.{answer_code, code_of, question_of};

use guard::Question;

// The count, or minus the number that refused.
pub fn code_of(answer: Result<usize, u32>) -> i64
    requires { IfOk answer (λ count. count ≤ 4294967295) }
    ensures { result ≡ code_of answer }
{
    match answer {
        Ok(count) => count as i64,
        Err(q) => -i64::from(q),
    }
}

// The same for a question of documents 01 and 02.
pub fn answer_code(answer: Result<usize, Question>) -> i64
    requires { IfOk answer (λ count. count ≤ 4294967295) }
    ensures { result ≡ answer_code answer }
{
    match answer {
        Ok(count) => code_of(Ok(count)),
        Err(q) => code_of(Err(q.number())),
    }
}

// 0, or the number of the question that refused.
pub fn question_of(answer: Result<(), Question>) -> u32
    ensures { result ≡ question_of answer }
{
    match answer {
        Ok(_) => 0,
        Err(q) => q.number(),
    }
}
