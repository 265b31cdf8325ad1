// Reads packed guard files from standard input, and prints the whole answer of the desk to each, as `guarddesk` does. The
// buffers are longer than they need be and never cleared: each call meets what the last one left, and no 0 anywhere else. A
// line says so if a number past the last row or the last place isn't 0.
#![tactic(auto)]

use guard::Answer;

// ---- the buffers

// The number, or another one in place of 0.
fn noise(number: i32) -> i32 {
    if number == 0 {
        return 1000000007;
    }
    number
}

// Leaves no 0 in a buffer.
fn make_noise(numbers: &mut [i32]) {
    for number in numbers.iter_mut() {
        *number = noise(*number);
    }
}

// Answers whether every number from place `start` on is 0.
fn zero_from(numbers: &[i32], start: usize) -> bool {
    numbers.iter().skip(start).all(|number| *number == 0)
}

fn print_dirt(rows: &[i32], places: &[i32], last_row: usize, last_place: usize) {
    if zero_from(rows, last_row) && zero_from(places, last_place) {
        return;
    }
    io::write_all(1, b"dirty\n");
}

// How many terms a guard has; a file that is refused has none.
fn terms(file: &[u8]) -> usize {
    match reader::read(file, 6, 24, 32) {
        Ok(t) => {
            let rows = t.rows;
            rows.many
        }
        Err(_) => 0,
    }
}

fn check_rest(file: &[u8], answer: Answer, shown: &[i32], places: &[i32]) {
    match answer {
        Answer::Sat { rows, .. } => print_dirt(shown, places, 4 * rows as usize, terms(file)),
        _ => print_dirt(shown, places, 0, 0),
    }
}

// ---- the files

fn answer(file: &[u8], budget: u32, rows: &mut [i32], places: &mut [i32]) {
    make_noise(rows);
    make_noise(places);
    let a = decide::decide(file, budget, rows, places);
    answertext::print_answer(file, a, rows, places);
    check_rest(file, a, rows, places);
}

// Answers whether there was a file.
fn answer_next(buffer: &mut [u8], rows: &mut [i32], places: &mut [i32]) -> bool {
    let n = packed::next_file(buffer);
    if buffer.len() < n {
        return false;
    }
    answer(&buffer[..n], packed::next_budget(), rows, places);
    true
}

fn one_file(rows: &mut [i32], places: &mut [i32]) -> bool {
    let mut buffer = [0u8; 2048];
    answer_next(&mut buffer, rows, places)
}

// Nothing says that the input ends, so the files are counted.
fn answer_all(rows: &mut [i32], places: &mut [i32]) {
    for _ in 0..65536 {
        if !one_file(rows, places) {
            return;
        }
    }
}

fn main() {
    let mut rows = [0i32; 16400];
    let mut places = [0i32; 32];
    answer_all(&mut rows, &mut places);
}
