// The desk's calls for programs in other languages, numbers and slices only; a slice is a pointer and a length there.
// `specs/Links.antt` says what it gives, link/guarddesk.h declares it for C, link/rust wraps it for Rust.
#![tactic(auto)]

ghost use Rattle.std.specs.Prelude.{◌≡◌, length};
ghost use Rattle.guard.specs.File.{file};
ghost use Rattle.guard.specs.Limits.{base};
ghost use Rattle.decidewithin.specs.CallerLimits.{loader};
ghost use Rattle.refutations.specs.Checker.{checked};
ghost use Rattle.recordchecker.specs.Checks.{answer};
ghost use Rattle.serialize.specs.NumberList.{list_file};
ghost use Rattle.filewriter.specs.Writer.{answer_by, answer_to, left_by, left_with};
ghost use Rattle.merged.specs.Merge.{merged_file};
ghost use Rattle.columnfile.specs.Columns.{restored_file, stored_bytes};
ghost use Rattle.branches.specs.Verdicts.{asks_of, left_in};
ghost use Rattle.summaries.specs.AddedLine.{asks_file, asks_line, brought, made_anew, question_in};
ghost use Rattle.desklink.specs.Links.{Links, LinksExplained, judged_code, written_code};
ghost use Rattle.returncodes.specs.Code.{minus};

// The answer to a guard file within a budget of nodes, as five numbers in `numbers`; the rest as `decide` has it. Returns
// 0, or 1 if `numbers` is too short for an answer; then nothing is written.
#[unsafe(no_mangle)]
pub extern "C" fn guarddesk_decide(
    file: &[u8],
    budget: u32,
    rows: &mut [i32],
    places: &mut [i32],
    numbers: &mut [u32],
) -> u32
    ensures { Links base file.now budget rows.old places.old numbers.old result rows.new places.new numbers.new }
{
    if numbers.len() < 5 {
        return 1;
    }
    let answer = decide::decide(file, budget, rows, places);
    answernumbers::put_answer(numbers, answer);
    0
}

// The same for the flight loader, within its smaller limits: at most 3 types, 8 terms and 8 lines, and buffers of at least 4,096 and 8
// numbers.
#[unsafe(no_mangle)]
pub extern "C" fn guarddesk_load(
    file: &[u8],
    budget: u32,
    rows: &mut [i32],
    places: &mut [i32],
    numbers: &mut [u32],
) -> u32
    ensures { Links loader file.now budget rows.old places.old numbers.old result rows.new places.new numbers.new }
{
    if numbers.len() > 4 {
        let answer = decide::load(file, budget, rows, places);
        answernumbers::put_answer(numbers, answer);
        return 0;
    }
    1
}

// As `guarddesk_decide`, and after UNSAT the record of the search in front of `record`, zeros behind; all zeros after every other answer. Returns the
// number of the record's bytes, or the largest number that there is if `numbers` is too short; then nothing is written.
#[unsafe(no_mangle)]
pub extern "C" fn guarddesk_explain(
    file: &[u8],
    budget: u32,
    rows: &mut [i32],
    places: &mut [i32],
    record: &mut [u8],
    numbers: &mut [u32],
) -> usize
    ensures { LinksExplained base file.now budget rows.old places.old «record».old numbers.old result rows.new places.new «record».new numbers.new }
{
    if numbers.len() <= 4 {
        return 18446744073709551615;
    }
    let e = explain::explain(file, budget, rows, places, record);
    let answer = e.answer;
    answernumbers::put_answer(numbers, answer);
    e.bytes
}

// The first question that gets a no when a record is read against a guard file, or 0: then no messages make the guard hold.
#[unsafe(no_mangle)]
pub extern "C" fn guarddesk_check(file: &[u8], record: &[u8]) -> u32
    ensures { answer result ≡ checked base file.now «record».now }
{
    returncodes::question_of(recordchecker::check(file, record))
}

// Writes a guard file from a list of its numbers, constants as their values, into `out`, zeros behind it. Returns the number of its
// bytes, or minus the number of the question that refused it; then `out` is all 0.
#[unsafe(no_mangle)]
pub extern "C" fn guarddesk_write(list: &[i64], out: &mut [u8]) -> i64
    ensures value { result ≡ written_code (answer_to (list_file base list.now) (length out.old)) }
    ensures not_result { ¬ (result ≡ minus 3) }
    ensures out_after { out.new ≡ left_by (list_file base list.now) (length out.old) }
{
    let w = filewriter::write(list, out);
    returncodes::answer_code(w)
}

// Two guard files as one: the file of a guard that holds where both do, into `out`, zeros behind it. Returns the number of its bytes, or
// minus the number of the first question that gets a no; then `out` is all 0.
#[unsafe(no_mangle)]
pub extern "C" fn guarddesk_merge(first: &[u8], second: &[u8], out: &mut [u8]) -> i64
    ensures value { result ≡ written_code (answer_to (merged_file base first.now second.now) (length out.old)) }
    ensures out_after { out.new ≡ left_by (merged_file base first.now second.now) (length out.old) }
{
    let w = merge::merge(first, second, out);
    returncodes::answer_code(w)
}

// A guard file with its term rows by column, for slow memory, into `out`, zeros behind it. Returns the number of stored bytes, or minus the
// number of the first question that gets a no; then `out` is all 0.
#[unsafe(no_mangle)]
pub extern "C" fn guarddesk_store(bytes: &[u8], out: &mut [u8]) -> i64
    ensures value { result ≡ written_code (answer_by stored_bytes (file base bytes.now) (length out.old)) }
    ensures out_after { out.new ≡ left_with stored_bytes (file base bytes.now) (length out.old) }
{
    let w = store::store(bytes, out);
    returncodes::answer_code(w)
}

// The guard file back from its stored bytes, into `out`, zeros behind it. Returns the number of its bytes, or minus the number of the first
// question that gets a no; then `out` is all 0.
#[unsafe(no_mangle)]
pub extern "C" fn guarddesk_restore(stored: &[u8], out: &mut [u8]) -> i64
    ensures value { result ≡ written_code (answer_to (restored_file base stored.now) (length out.old)) }
    ensures out_after { out.new ≡ left_by (restored_file base stored.now) (length out.old) }
{
    let w = restore::restore(stored, out);
    returncodes::answer_code(w)
}

// The verdicts on the branches of a procedure and on each pair of them, into `out`: a byte for each branch, then one for each pair, zeros behind them.
// Returns the number of branches, or minus the number of the first question that gets a no; then `out` is all 0.
#[unsafe(no_mangle)]
pub extern "C" fn guarddesk_branches(procedure: &[u8], budget: u32, out: &mut [u8]) -> i64
    ensures value { result ≡ judged_code (asks_of procedure.now (length out.old)) }
    ensures out_after { out.new ≡ left_in budget (length out.old) (asks_of procedure.now (length out.old)) }
{
    let j = branchverdicts::judge_branches(procedure, budget, out);
    returncodes::answer_code(j)
}

// The summary of a guard, made anew: 48 numbers in front of `summary`. Returns 0, or the number of the first question that gets a no; then `summary`
// is as it was.
#[unsafe(no_mangle)]
pub extern "C" fn guarddesk_summarize(file: &[u8], budget: u32, summary: &mut [u16]) -> u32
    ensures value { result ≡ question_in (asks_file file.now (length summary.old)) }
    ensures summary_after { summary.new ≡ made_anew budget summary.old (asks_file file.now (length summary.old)) }
{
    returncodes::question_of(summary::summarize(file, budget, summary))
}

// The summary of a guard brought up to date with a line that is added to it. Returns the same.
#[unsafe(no_mangle)]
pub extern "C" fn guarddesk_add_line(
    file: &[u8],
    line: &[u8],
    budget: u32,
    summary: &mut [u16],
) -> u32
    ensures value { result ≡ question_in (asks_line file.now line.now (length summary.old)) }
    ensures summary_after { summary.new ≡ brought budget summary.old (asks_line file.now line.now (length summary.old)) }
{
    returncodes::question_of(summary::add_line(file, line, budget, summary))
}
