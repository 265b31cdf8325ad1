// Reads a line that is added to a guard, and puts it behind the guard's own (request #114). `specs/LineRead.antt` says what is read.
#![tactic(auto)]

ghost use Rattle.std.specs.Prelude.{◌≡◌, ◌+◌, ◌<◌, set};
ghost use Rattle.guard.specs.Limits.{base};
ghost use Rattle.summaries.specs.InTables.{SomeGuard};
ghost use Rattle.addedline.specs.LineRead.{ReadsLine};

use guard::Question;
use literalkinds::{Literal, read_literal};
use tables::{LiteralTable, RowTable, TypeTable};

// The table with a line more.
fn appended(lines: LiteralTable, literal: Literal) -> LiteralTable
    requires { lines.many < 64 }
    ensures { result ≡ record { many = lines.many + 1; kinds = set lines.kinds lines.many literal.kind; terms = set lines.terms lines.many literal.term; others = set lines.others lines.many literal.other } }
{
    let n = lines.many;
    let mut kinds = lines.kinds;
    let mut terms = lines.terms;
    let mut others = lines.others;
    kinds[n] = literal.kind;
    terms[n] = literal.term;
    others[n] = literal.other;
    LiteralTable {
        many: n + 1,
        kinds,
        terms,
        others,
    }
}

// The questions of a line that is added to a guard within the base's limits: 4 if it would be the thirty-third, 2, 3 and 5 to 7 of its
// numbers, and 10.
pub fn read_line(
    types: TypeTable,
    rows: RowTable,
    lines: LiteralTable,
    bytes: &[u8],
) -> Result<LiteralTable, Question>
    requires { SomeGuard base types rows lines }
    ensures { ReadsLine types rows lines bytes.now result }
{
    if 32 <= lines.many {
        return Err(Question::TooMany);
    }
    let counts = types.variants;
    let sorts = rows.types;
    let l = read_literal(bytes, 0, &counts, rows.many, &sorts)?;
    if l.at < bytes.len() {
        return Err(Question::TrailingBytes);
    }
    Ok(appended(lines, l.value))
}
