// Reads packed guard files from standard input, and prints the answer to each in a line: REFUSED with the question, or the
// verdict with the node count and the splits of either kind.
#![tactic(auto)]

use rootsearch::Found;
use tallies::Tally;

fn print_line(name: &[u8], value: u32) {
    io::write_all(1, name);
    io::print_decimal(1, value as u64);
    io::write_all(1, b"\n");
}

fn print_counts(name: &[u8], nodes: u32, t: Tally) {
    io::write_all(1, name);
    io::print_decimal(1, nodes as u64);
    io::write_all(1, b" splits ");
    io::print_decimal(1, t.first as u64);
    print_line(b" ", t.second);
}

fn print_found(budget: u32, found: Found) {
    match found {
        Found::Open(_, t) => print_counts(b"SAT ", budget.saturating_sub(t.left), t),
        Found::Closed(t) => print_counts(b"UNSAT ", budget.saturating_sub(t.left), t),
        Found::Spent(t) => print_counts(b"SPENT ", budget, t),
    }
}

// Prints the answer to a file.
fn answer(file: &[u8], budget: u32) {
    match reader::read(file, 6, 24, 32) {
        Ok(t) => {
            let problem = problem::problem_of(t);
            print_found(budget, rootsearch::search_guard(&t, &problem, budget));
        }
        Err(q) => print_line(b"REFUSED ", q.number()),
    }
}

// Answers whether there was a file.
fn answer_next(buffer: &mut [u8]) -> bool {
    let n = packed::next_file(buffer);
    if buffer.len() < n {
        return false;
    }
    answer(&buffer[..n], packed::next_budget());
    true
}

fn one_file() -> bool {
    let mut buffer = [0u8; 2048];
    answer_next(&mut buffer)
}

// Nothing says that the input ends, so the files are counted.
fn main() {
    for _ in 0..65536 {
        if !one_file() {
            return;
        }
    }
}
