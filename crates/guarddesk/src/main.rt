// Reads a guard file from standard input, at most 1,024 bytes of it, decides it within 1,000,000 nodes, and writes the text of
// the answer.
#![tactic(auto)]

fn answer(file: &[u8]) {
    let mut rows = [0i32; 16384];
    let mut places = [0i32; 24];
    let a = decide::decide(file, 1000000, &mut rows, &mut places);
    answertext::print_answer(file, a, &rows, &places);
}

fn main() {
    let mut file = [0u8; 1024];
    let n = io::read_full(0, &mut file);
    answer(&file[..n]);
}
