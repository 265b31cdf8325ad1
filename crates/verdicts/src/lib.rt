// The desk's verdict on a guard with lines behind its own, from tables: the guard's bytes go to the desk's call under a line limit of 64, and
// nothing is relied on but its contract. `specs/VerdictOn.antt` says what each verdict is.
#![tactic(auto)]

ghost use Rattle.std.specs.Prelude.{◌≡◌};
ghost use Rattle.guard.specs.Answer.{outcome, outcome_of};
ghost use Rattle.verdictcodes.specs.Codes.{code_of};
ghost use Rattle.verdicts.specs.VerdictOn.{Askable, VerdictOn, code, code_or_none, wide};

use decidewithin::decide_within;
use guard::Answer;
use guardwriter::put_guard;
use tables::{LiteralTable, RowTable, TypeTable};

// What the desk says of a guard within a budget: some messages make it hold, none do, or the budget doesn't suffice to tell.
#[derive(Clone, Copy)]
pub enum Verdict {
    Sat,
    Unsat,
    Spent,
}

impl Verdict {
    // Its number in document 02 (#113).
    pub fn code(self) -> u8
        ensures { result ≡ code self }
    {
        match self {
            Verdict::Sat => 1,
            Verdict::Unsat => 2,
            Verdict::Spent => 3,
        }
    }
}

// The verdict of an answer, if it isn't a refusal.
#[tactic(auto, unfolding(guard::specs::Answer::outcome_of))]
fn verdict_of(a: Answer) -> Option<Verdict>
    ensures { code_or_none result ≡ code_of (outcome_of a) }
{
    match a {
        Answer::Refused { .. } => None,
        Answer::Sat { .. } => Some(Verdict::Sat),
        Answer::Unsat { .. } => Some(Verdict::Unsat),
        Answer::Spent { .. } => Some(Verdict::Spent),
    }
}

// The desk's verdict on a guard file with up to 64 lines, if it is accepted.
fn ask(file: &[u8], budget: u32) -> Option<Verdict>
    ensures { code_or_none result ≡ code_of (outcome wide file.now budget 16384 24) }
{
    let mut messages = [0i32; 16384];
    let mut places = [0i32; 24];
    verdict_of(decide_within(6, 24, 64, file, budget, &mut messages, &mut places))
}

// The verdict on the guard with both tables' lines.
pub fn verdict_on(
    types: &TypeTable,
    rows: &RowTable,
    first: &LiteralTable,
    second: &LiteralTable,
    budget: u32,
) -> Verdict
    requires { Askable types.now rows.now first.now second.now }
    ensures { VerdictOn types.now rows.now first.now second.now budget result }
{
    let mut file = [0u8; 681];
    let end = put_guard(types, rows, first, second, &mut file).unwrap();
    ask(&file[..end], budget).unwrap()
}
