// Reads packed guard files from standard input, and prints one line for each: the question that refused it, or the sizes of
// its tables and a sum over all their entries.
#![tactic(auto)]

use guard::Question;
use reader::Tables;
use siblings::Siblings;
use tables::{LiteralTable, RowTable, TypeTable};

// ---- the sum

// The sum with one more entry, modulo 2^32. The factor is odd, so a single wrong entry gives a wrong sum.
fn mix(sum: u64, entry: u64) -> u64 {
    (sum % 4294967296 * 16777619 + entry % 4294967296) % 4294967296
}

fn mix_byte(sum: u64, entry: u8) -> u64 {
    mix(sum, entry as u64)
}

// A signed value counts as the guard file writes it, low half first.
fn mix_value(sum: u64, entry: i64) -> u64 {
    let folded = values::fold(entry);
    mix(mix(sum, folded), folded / 4294967296)
}

fn mix_bytes(start: u64, column: &[u8]) -> u64 {
    let mut sum = start;
    for entry in column {
        sum = mix_byte(sum, *entry);
    }
    sum
}

fn mix_values(start: u64, column: &[i64]) -> u64 {
    let mut sum = start;
    for entry in column {
        sum = mix_value(sum, *entry);
    }
    sum
}

fn mix_types(start: u64, table: TypeTable) -> u64 {
    let variants = table.variants;
    let first = table.first;
    let arities = table.arities;
    let sorts = table.sorts;
    let mut sum = mix(start, table.many as u64);
    sum = mix_bytes(sum, &variants);
    sum = mix_bytes(sum, &first);
    sum = mix_bytes(sum, &arities);
    mix_bytes(sum, &sorts)
}

fn mix_rows(start: u64, table: RowTable) -> u64 {
    let kinds = table.kinds;
    let types = table.types;
    let variants = table.variants;
    let parts = table.parts;
    let values = table.values;
    let mut sum = mix(start, table.many as u64);
    sum = mix_bytes(sum, &kinds);
    sum = mix_bytes(sum, &types);
    sum = mix_bytes(sum, &variants);
    sum = mix_bytes(sum, &parts);
    mix_values(sum, &values)
}

fn mix_literals(start: u64, table: LiteralTable) -> u64 {
    let kinds = table.kinds;
    let terms = table.terms;
    let others = table.others;
    let mut sum = mix(start, table.many as u64);
    sum = mix_bytes(sum, &kinds);
    sum = mix_bytes(sum, &terms);
    mix_bytes(sum, &others)
}

fn mix_siblings(start: u64, table: Siblings) -> u64 {
    let fields = table.fields;
    let sorts = table.sorts;
    mix_bytes(mix_bytes(start, &fields), &sorts)
}

fn mix_tables(t: Tables) -> u64 {
    let defaults = t.defaults;
    let types = mix_types(0, t.types);
    let rows = mix_rows(mix_bytes(types, &defaults), t.rows);
    mix_siblings(mix_literals(rows, t.literals), t.siblings)
}

// ---- the lines

fn print_refused(question: Question) {
    io::write_all(1, b"refused ");
    io::print_decimal(1, question.number() as u64);
    io::write_all(1, b"\n");
}

fn print_sizes(types: usize, rows: usize, lines: usize, sum: u64) {
    io::print_decimal(1, types as u64);
    io::write_all(1, b" types ");
    io::print_decimal(1, rows as u64);
    io::write_all(1, b" rows ");
    io::print_decimal(1, lines as u64);
    io::write_all(1, b" lines, sum ");
    io::print_decimal(1, sum);
    io::write_all(1, b"\n");
}

fn print_tables(t: Tables) {
    let types = t.types;
    let rows = t.rows;
    let literals = t.literals;
    print_sizes(types.many, rows.many, literals.many, mix_tables(t));
}

// Answers whether there was a file.
fn read_next(buffer: &mut [u8]) -> bool {
    let n = packed::next_file(buffer);
    if buffer.len() < n {
        return false;
    }
    match reader::read(&buffer[..n], 6, 24, 32) {
        Ok(t) => print_tables(t),
        Err(q) => print_refused(q),
    }
    packed::next_budget();
    true
}

fn one_file() -> bool {
    let mut buffer = [0u8; 2048];
    read_next(&mut buffer)
}

// Nothing says that the input ends, so the files are counted.
fn main() {
    for _ in 0..65536 {
        if !one_file() {
            return;
        }
    }
}
