// An answer as text: the verdict and its node count, or REFUSED and its number; after SAT each row, and each term with its
// row. `specs/Text.antt` says what the text is.
#![tactic(auto)]

ghost use Rattle.std.specs.Prelude.{◌≡◌, [], ◌+◌, ◌*◌, ◌<◌, ◌≤◌, length};
ghost use Rattle.laws.specs.Lists.{concat_map, from};
ghost use Rattle.guard.specs.Answer.{rows_of};
ghost use Rattle.guard.specs.File.{file};
ghost use Rattle.guard.specs.Limits.{base};
ghost use Rattle.tables.specs.Layout.{type_table};
ghost use Rattle.writing.specs.Wrote.{HasRoom, Wrote};
ghost use Rattle.writing.specs.Written.{Written};
ghost use Rattle.answertext.specs.Text.{answer_text, shown_text, term_line, terms_in, types_in, verdict_line};

use bytebuffer::Writer;
use guard::Answer;
use tables::TypeTable;

// ---- terms

fn put_term(out: &mut Writer, places: &[i32], i: u32)
    requires { HasRoom 96 out.old }
    ensures { Wrote 96 (term_line places.now i) out.old out.new }
{
    writing::put_named(out, b"term ", i);
    writing::put_bytes(out, b" row");
    writing::put_number_at(out, places, i as usize);
    writing::put_bytes(out, b"\n");
}

fn put_terms(out: &mut Writer, places: &[i32], many: u32)
    requires { HasRoom (96 * many) out.old }
    ensures { Wrote (96 * many) (concat_map (term_line places.now) (from many 0)) out.old out.new }
{
    for i in 0..many {
        put_term(out, places, i);
    }
}

// ---- answers

fn put_verdict(out: &mut Writer, name: &[u8], n: u32)
    requires { HasRoom (length name.now + 11) out.old }
    ensures { Wrote (length name.now + 11) (verdict_line name.now n) out.old out.new }
{
    writing::put_named(out, name, n);
    writing::put_bytes(out, b"\n");
}

// The table of no types.
fn no_types() -> TypeTable
    ensures { result ≡ type_table [] }
{
    TypeTable {
        many: 0,
        variants: [0; 6],
        first: [0; 6],
        arities: [0; 48],
        sorts: [0; 144],
    }
}

// The rows and terms that are shown. How many fields each variant has, and how many terms there are, is the file's; one that is refused
// has no types and no terms.
fn put_shown(out: &mut Writer, bytes: &[u8], many: u32, rows: &[i32], places: &[i32])
    requires { HasRoom (96 * many + 2304) out.old }
    ensures { Wrote (96 * many + 2304) (shown_text (types_in (file base bytes.now)) (terms_in (file base bytes.now)) many rows.now places.now) out.old out.new }
{
    match reader::read(bytes, 6, 24, 32) {
        Ok(t) => {
            rowtext::put_rows(out, &t.types, rows, many);
            put_terms(out, places, t.rows.many as u32);
        }
        Err(_) => rowtext::put_rows(out, &no_types(), rows, many),
    }
}

// The text of the answer to a file, whose messages the two buffers show.
fn put_answer(out: &mut Writer, bytes: &[u8], answer: Answer, rows: &[i32], places: &[i32])
    requires { HasRoom (96 * rows_of answer + 2400) out.old }
    ensures { Wrote (96 * rows_of answer + 2400) (answer_text (file base bytes.now) answer rows.now places.now) out.old out.new }
{
    match answer {
        Answer::Refused { question } => put_verdict(out, b"REFUSED ", question),
        Answer::Sat {
            nodes,
            rows: many,
            ..
        } => {
            put_verdict(out, b"SAT ", nodes);
            put_shown(out, bytes, many, rows, places);
        }
        Answer::Unsat { nodes, .. } => put_verdict(out, b"UNSAT ", nodes),
        Answer::Spent { budget, .. } => put_verdict(out, b"SPENT ", budget),
    }
}

// The same from the start of a buffer on; the text's length.
pub fn answer_text(
    bytes: &[u8],
    answer: Answer,
    rows: &[i32],
    places: &[i32],
    out: &mut [u8],
) -> usize
    requires { 96 * rows_of answer + 2400 ≤ length out.old }
    ensures { Written (96 * rows_of answer + 2400) out.old 0 (answer_text (file base bytes.now) answer rows.now places.now) out.new result }
{
    let mut writer = Writer::new(out);
    put_answer(&mut writer, bytes, answer, rows, places);
    writer.at
}

// Writes the text of the answer to standard output, by way of a buffer.
fn write_answer(bytes: &[u8], answer: Answer, rows: &[i32], places: &[i32], text: &mut [u8])
    requires { 96 * rows_of answer + 2400 ≤ length text.old }
{
    let n = answer_text(bytes, answer, rows, places, text);
    io::write_all(1, &text[..n]);
}

// Zeros, 96 for each of 4,096 rows and 2,400 for the rest.
fn text_buffer() -> [u8; 395616]
    ensures { 395616 ≡ length result }
{
    [0; 395616]
}

pub fn print_answer(bytes: &[u8], answer: Answer, rows: &[i32], places: &[i32])
    requires { rows_of answer ≤ 4096 }
{
    let mut text = text_buffer();
    write_answer(bytes, answer, rows, places, &mut text);
}
