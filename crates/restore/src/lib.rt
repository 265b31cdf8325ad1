// A guard file back from its term rows by column (request #111). `specs/Columns.antt` of `columnfile` says what is asked and restored,
// `specs/Writer.antt` of `filewriter` what a call that writes answers.
#![tactic(auto)]

ghost use Rattle.std.specs.Prelude.{◌≡◌, ◌≤◌, drop, length, replicate};
ghost use Rattle.guard.specs.Limits.{base};
ghost use Rattle.filewriter.specs.Writer.{Answered, answer_to, left_by};
ghost use Rattle.columnfile.specs.Columns.{restored_file};
ghost use Rattle.restore.specs.Restoring.{AnswersRestored, Asks, HeadSays, PutsRestored, Restorable, SomeTypes};

use bytebuffer::Writer;
use datatypes::type_facts;
use guard::Question;
use literalreader::read_literals;
use numbers::read_asked;
use rowreader::read_rows;
use tables::TypeTable;
use typereader::read_types;

// The types of a stored file, its number of rows, and where its columns begin.
#[derive(Clone, Copy)]
struct Head {
    at: usize,
    rows: usize,
    table: TypeTable,
}

// Document 02: "up to N the base's questions are asked".
fn head_of(stored: &[u8]) -> Result<Head, Question>
    ensures { HeadSays stored.now result }
{
    let t = read_types(stored, 6)?;
    let table = t.value;
    type_facts(table)?;
    let n = read_asked(stored, t.at, 25, Question::TooMany)?;
    Ok(Head {
        at: n.at,
        rows: n.value as usize,
        table,
    })
}

// The questions put to N and the restored rows, and to what stands behind them from `at` on.
fn asked(rows: &[u8], stored: &[u8], at: usize, table: TypeTable) -> Result<(), Question>
    requires { SomeTypes table }
    ensures { Asks table rows.now (drop at stored.now) result }
{
    let n = read_rows(rows, 0, 24, table)?;
    let t = n.value;
    let counts = table.variants;
    let sorts = t.types;
    read_literals(stored, at, 32, &counts, t.many, &sorts)?;
    Ok(())
}

// The restored file, from the start of the buffer on.
fn put_restored(types: &TypeTable, rows: &[u8], rest: &[u8], out: &mut [u8]) -> Option<usize>
    requires { SomeTypes types.now }
    ensures { PutsRestored types.now rows.now rest.now out.old result out.new }
{
    let mut writer = Writer::new(out);
    typewriter::put_types(types, &mut writer)?;
    writer.put(rows)?;
    restoredrows::put_bytes(rest, &mut writer)?;
    Some(writer.at)
}

// The file restored from cells and what stands behind the columns, in a buffer of zeros. Of 24 rows with six numbers of up to ten
// bytes 1,536 bytes have room.
fn restore_rows(
    stored: &[u8],
    at: usize,
    types: &TypeTable,
    n: usize,
    cells: &[u64; 144],
    out: &mut [u8],
) -> Result<usize, Question>
    requires restorable { Restorable types.now n cells.now }
    requires at_in_bounds { at ≤ length stored.now }
    requires out_value { out.old ≡ replicate (length out.old) 0 }
    ensures { AnswersRestored types.now n cells.now (drop at stored.now) out.old result out.new }
{
    let mut rows = [0u8; 1536];
    let many = restoredrows::put_rows(types, cells, n, &mut rows).unwrap();
    asked(&rows[..many], stored, at, *types)?;
    let Some(end) = put_restored(types, &rows[..many], &stored[at..], out) else {
        bytebuffer::clear(out);
        return Err(Question::FileTooLong);
    };
    Ok(end)
}

// The file that these bytes are stored of, and zeros behind it: how many bytes it has; or the first question that gets a no, and nothing but
// zeros.
pub fn restore(stored: &[u8], out: &mut [u8]) -> Result<usize, Question>
    ensures value { Answered (answer_to (restored_file base stored.now) (length out.old)) result }
    ensures out_after { out.new ≡ left_by (restored_file base stored.now) (length out.old) }
{
    bytebuffer::clear(out);
    let h = head_of(stored)?;
    let table = h.table;
    let mut cells = [0u64; 144];
    let next = columnreader::read_columns(stored, h.at, table, h.rows, &mut cells)?;
    restore_rows(stored, next, &table, h.rows, &cells, out)
}
