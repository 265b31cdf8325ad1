// Document 01 of the guard desk as definitions (specs/), with what is proved of them alone (proofs/).
#![tactic(auto)]

ghost use Rattle.std.specs.Prelude.{◌≡◌};
ghost use Rattle.guard.specs.Question.{number_of};

// The answer of a call. `specs/Answer.antt` sets out the document's number and values for each case.
#[derive(Clone, Copy)]
pub enum Answer {
    Refused {
        question: u32,
    },
    Sat {
        nodes: u32,
        first_splits: u32,
        second_splits: u32,
        rows: u32,
    },
    Unsat {
        nodes: u32,
        first_splits: u32,
        second_splits: u32,
    },
    Spent {
        budget: u32,
        first_splits: u32,
        second_splits: u32,
    },
}

// The questions that calls, files, lists and records are asked, each by what a no says.
#[derive(Clone, Copy, Debug, PartialEq, Eq, Hash)]
pub enum Question {
    ShortBuffer,
    Truncated,
    Malformed,
    TooMany,
    UnknownName,
    UnknownKind,
    TypeMismatch,
    NoDefault,
    NoInfiniteField,
    TrailingBytes,
    RecordTooLong,
    FalseEntry,
    RecordEnd,
    FileTooLong,
    TypesDiffer,
    VariablesDiffer,
    TwoNumberTypes,
    BranchCount,
}

impl Question {
    // Its number in documents 01 and 02.
    pub fn number(self) -> u32
        ensures { result ≡ number_of self }
    {
        match self {
            Question::ShortBuffer => 1,
            Question::Truncated => 2,
            Question::Malformed => 3,
            Question::TooMany => 4,
            Question::UnknownName => 5,
            Question::UnknownKind => 6,
            Question::TypeMismatch => 7,
            Question::NoDefault => 8,
            Question::NoInfiniteField => 9,
            Question::TrailingBytes => 10,
            Question::RecordTooLong => 11,
            Question::FalseEntry => 12,
            Question::RecordEnd => 13,
            Question::FileTooLong => 14,
            Question::TypesDiffer => 15,
            Question::VariablesDiffer => 16,
            Question::TwoNumberTypes => 18,
            Question::BranchCount => 19,
        }
    }
}

impl From<Question> for u32 {
    ghost from_gives = { λ q n. n ≡ number_of q };

    fn from(question: Question) -> u32 {
        question.number()
    }
}
