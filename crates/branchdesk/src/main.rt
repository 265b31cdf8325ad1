// Reads the file of a procedure from standard input, at most 2,048 bytes of it, has its branches and pairs judged within 1,000,000 nodes
// each, and writes the lists (document 02, #113).
#![tactic(auto)]

ghost use Rattle.std.specs.Prelude.{◌≡◌, ◌≤◌, length, IfOk, MatchResult};
ghost use Rattle.guard.specs.Question.{number_of};

use branchtext::branch_text;
use branchverdicts::judge_branches;
use guard::Question;

// The answer as it is told: with the number of the question.
fn told(judged: Result<usize, Question>) -> Result<usize, u32>
    ensures { MatchResult judged (λ n. result ≡ Ok n) (λ q. result ≡ Err (number_of q)) }
{
    match judged {
        Ok(n) => Ok(n),
        Err(q) => Err(q.number()),
    }
}

// Writes the text to standard output, by way of a buffer.
fn print(answer: Result<usize, u32>, codes: &[u8], text: &mut [u8])
    requires many_bound { IfOk answer (λ n. n ≤ 8) }
    requires in_bounds { 36 ≤ length codes.now }
    requires in_bounds_2 { 4608 ≤ length text.old }
{
    let n = branch_text(answer, codes, text);
    io::write_all(1, &text[..n]);
}

fn text_buffer() -> [u8; 4608]
    ensures { 4608 ≡ length result }
{
    [0; 4608]
}

fn answer(file: &[u8]) {
    let mut codes = [0u8; 36];
    let judged = judge_branches(file, 1000000, &mut codes);
    let mut text = text_buffer();
    print(told(judged), &codes, &mut text);
}

fn main() {
    let mut file = [0u8; 2048];
    let n = io::read_full(0, &mut file);
    answer(&file[..n]);
}
