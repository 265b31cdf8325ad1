// A guard file with its term rows by column, for slow memory (request #111). `specs/Columns.antt` of `columnfile` says what is stored,
// `specs/Writer.antt` of `filewriter` what a call that writes answers.
#![tactic(auto)]

ghost use Rattle.std.specs.Prelude.{◌≡◌, length};
ghost use Rattle.guard.specs.File.{file};
ghost use Rattle.guard.specs.Limits.{base};
ghost use Rattle.filewriter.specs.Writer.{Answered, answer_by, left_with};
ghost use Rattle.columnfile.specs.Columns.{stored_bytes};

use guard::Question;

// The stored bytes of an accepted file, and zeros behind them: how many bytes they are; or the first question that gets a no, and nothing
// but zeros.
pub fn store(bytes: &[u8], out: &mut [u8]) -> Result<usize, Question>
    ensures value { Answered (answer_by stored_bytes (file base bytes.now) (length out.old)) result }
    ensures out_after { out.new ≡ left_with stored_bytes (file base bytes.now) (length out.old) }
{
    bytebuffer::clear(out);
    let t = reader::read(bytes, 6, 24, 32)?;
    let Some(end) = columnwriter::put_stored(&t, out) else {
        bytebuffer::clear(out);
        return Err(Question::FileTooLong);
    };
    Ok(end)
}
