// The entries of a record, read at a cursor.
#![tactic(auto)]

ghost use Rattle.std.specs.Prelude.{drop};
ghost use Rattle.refutations.specs.Checker.{entry};
ghost use Rattle.entryreader.specs.Entries.{ReadsEntry, entry_by_kind};

use closings::Closing;
use guard::Question;
use numbers::{Read, read_number};

// An entry of a record: why a node closes; or the term and the variant of a split.
#[derive(Clone, Copy)]
pub enum Entry {
    Closing(Closing),
    Split { term: u32, variant: u32 },
}

// The entry at `at`, by its kind, with each number's own question.
fn read_by_kind(bytes: &[u8], at: usize) -> Result<Read<Entry>, Question>
    ensures { ReadsEntry (entry_by_kind (drop at bytes.now)) bytes.now result }
{
    let k = read_number(bytes, at)?;
    if 4 < k.value {
        return Err(Question::FalseEntry);
    }
    let n = read_number(bytes, k.at)?;
    let closing = match k.value {
        0 => Closing::EmptyLabel(n.value),
        1 => Closing::BrokenLine(n.value),
        2 => Closing::UnlikeConstants(n.value),
        3 => Closing::InsideItself(n.value),
        _ => {
            let v = read_number(bytes, n.at)?;
            return Ok(Read {
                value: Entry::Split {
                    term: n.value,
                    variant: v.value,
                },
                at: v.at,
            });
        }
    };
    Ok(Read {
        value: Entry::Closing(closing),
        at: n.at,
    })
}

// The entry at `at`. Whatever is wrong with its numbers, it is a false entry.
pub fn read_entry(bytes: &[u8], at: usize) -> Result<Read<Entry>, Question>
    ensures { ReadsEntry (entry (drop at bytes.now)) bytes.now result }
{
    match read_by_kind(bytes, at) {
        Ok(e) => Ok(e),
        Err(_) => Err(Question::FalseEntry),
    }
}
