// The branches of a procedure as text (document 02, #113): those that never run, the pairs that can run together, and what came out SPENT.
// `specs/BranchText.antt` says what the text is.
#![tactic(auto)]

ghost use Rattle.std.specs.Prelude.{◌+◌, ◌*◌, ◌≤◌, length, IfOk};
ghost use Rattle.branches.specs.Verdicts.{lists_of};
ghost use Rattle.writing.specs.Wrote.{HasRoom, Wrote};
ghost use Rattle.writing.specs.Written.{Written};
ghost use Rattle.branchtext.specs.BranchText.{branch_text, line, lines, lines_of_pairs, lists_text, name_of, pairs_of};

use bytebuffer::Writer;

// A number after its words, and the end of the line.
fn put_line(out: &mut Writer, name: &[u8], n: u32)
    requires name_len_bound { length name.now ≤ 21 }
    requires has_room { HasRoom 32 out.old }
    ensures { Wrote 32 (line name.now n) out.old out.new }
{
    writing::put_named(out, name, n);
    writing::put_bytes(out, b"\n");
}

// A line for each of `n` numbers from `first` on that has this code; the codes stand from `place` on.
#[tactic(auto, using(crate::proofs::ListLaws::list_laws))]
fn put_list(out: &mut Writer, name: &[u8], codes: &[u8], place: usize, first: u32, n: u32, code: u8)
    requires name_len_bound { length name.now ≤ 21 }
    requires n_bound { first + n ≤ 8 }
    requires n_in_bounds { place + n ≤ length codes.now }
    requires has_room { HasRoom (32 * n) out.old }
    ensures { Wrote (32 * n) (lines name.now code n first place codes.now) out.old out.new }
{
    for k in 0..n {
        if codes[place + k as usize] == code {
            put_line(out, name, first + k);
        }
    }
}

// What the lines of the pairs of branch `i` begin with; its length.
fn put_name(word: &[u8], i: u32, name: &mut [u8]) -> usize
    requires word_len_bound { length word.now ≤ 8 }
    requires in_bounds { 32 ≤ length name.old }
    ensures { Written (length word.now + 11) name.old 0 (name_of word.now i) name.new result }
{
    let mut words = Writer::new(name);
    writing::put_named(&mut words, word, i);
    writing::put_bytes(&mut words, b" ");
    words.at
}

// A line for each pair of the branch `i` with one of the `n` behind it that has this code.
fn put_pairs_of(out: &mut Writer, word: &[u8], codes: &[u8], place: usize, i: u32, n: u32, code: u8)
    requires word_len_bound { length word.now ≤ 8 }
    requires n_bound { i + 1 + n ≤ 8 }
    requires n_in_bounds { place + n ≤ length codes.now }
    requires has_room { HasRoom (32 * n) out.old }
    ensures { Wrote (32 * n) (pairs_of word.now code n i place codes.now) out.old out.new }
{
    let mut name = [0u8; 32];
    let end = put_name(word, i, &mut name);
    put_list(out, &name[..end], codes, place, i + 1, n, code);
}

// A line for each pair that has this code, by lower branch, then higher.
fn put_pairs(out: &mut Writer, word: &[u8], codes: &[u8], many: u32, code: u8)
    requires word_len_bound { length word.now ≤ 8 }
    requires many_bound { many ≤ 8 }
    requires in_bounds { 36 ≤ length codes.now }
    requires has_room { HasRoom (256 * many) out.old }
    ensures { Wrote (256 * many) (lines_of_pairs word.now code many 0 many codes.now) out.old out.new }
{
    let mut place = many as usize;
    for i in 0..many {
        let n = many - i - 1;
        put_pairs_of(out, word, codes, place, i, n, code);
        place += n as usize;
    }
}

// The four lists in turn.
fn put_lists(out: &mut Writer, codes: &[u8], many: u32)
    requires many_bound { many ≤ 8 }
    requires in_bounds { 36 ≤ length codes.now }
    requires has_room { HasRoom 4608 out.old }
    ensures { Wrote 4608 (lists_text (lists_of many codes.now)) out.old out.new }
{
    put_list(out, b"dead ", codes, 0, 0, many, 2);
    put_pairs(out, b"pair ", codes, many, 1);
    put_list(out, b"spent ", codes, 0, 0, many, 3);
    put_pairs(out, b"spent ", codes, many, 3);
}

// The text for what a call answered, which is how many branches there are or the number of a question, and for their codes.
fn put_text(out: &mut Writer, answer: Result<usize, u32>, codes: &[u8])
    requires many_bound { IfOk answer (λ n. n ≤ 8) }
    requires in_bounds { 36 ≤ length codes.now }
    requires has_room { HasRoom 4608 out.old }
    ensures { Wrote 4608 (branch_text answer codes.now) out.old out.new }
{
    match answer {
        Ok(many) => put_lists(out, codes, many as u32),
        Err(q) => put_line(out, b"REFUSED ", q),
    }
}

// The same from the start of a buffer on; its length.
pub fn branch_text(answer: Result<usize, u32>, codes: &[u8], out: &mut [u8]) -> usize
    requires many_bound { IfOk answer (λ n. n ≤ 8) }
    requires in_bounds { 36 ≤ length codes.now }
    requires in_bounds_2 { 4608 ≤ length out.old }
    ensures { Written 4608 out.old 0 (branch_text answer codes.now) out.new result }
{
    let mut writer = Writer::new(out);
    put_text(&mut writer, answer, codes);
    writer.at
}
