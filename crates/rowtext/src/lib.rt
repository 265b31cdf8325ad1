// Rows of messages as text. `specs/Rows.antt` says what the text is.
#![tactic(auto)]

ghost use Rattle.std.specs.Prelude.{◌≡◌, ◌+◌, ◌*◌, ◌<◌, ◌≤◌, length};
ghost use Rattle.laws.specs.Lists.{concat_map, from};
ghost use Rattle.writing.specs.Wrote.{HasRoom, Wrote};
ghost use Rattle.rowtext.specs.Rows.{made_text, parts_text, row_line, row_text, row_value, value_text};
ghost use Rattle.rowtext.specs.Arity.{AritiesFit, arity_in};

use bytebuffer::Writer;
use tables::TypeTable;

// How many parts a message of this type and variant has.
fn arity(types: &TypeTable, t: u32, v: u32) -> usize
    requires { AritiesFit types.now }
    ensures { result ≡ arity_in types.now t v }
{
    if 6 <= t {
        return 0;
    }
    if types.variants[t as usize] as u32 <= v {
        return 0;
    }
    types.arities[types.first[t as usize] as usize + v as usize] as usize
}

// So many parts of a row, if it has any, from number `j` on.
fn put_parts(out: &mut Writer, rows: &[i32], j: usize, many: usize)
    requires many_bound { (many ≤ 3) × (j < 18446744073709551612) }
    requires has_room { HasRoom 42 out.old }
    ensures { Wrote 42 (parts_text rows.now j many) out.old out.new }
{
    if many == 0 {
        return;
    }
    writing::put_bytes(out, b" parts");
    for p in 0..many {
        writing::put_number_at(out, rows, j + p);
    }
}

// A message with this tag: "A message of type t and variant v has 16 × t + v, then the rows of its parts", here from number
// `j` on.
fn put_message(out: &mut Writer, types: &TypeTable, rows: &[i32], j: usize, tag: u32)
    requires arities_fit { AritiesFit types.now }
    requires j_bound { j < 18446744073709551612 }
    requires has_room { HasRoom 77 out.old }
    ensures { Wrote 77 (made_text (arity_in types.now) rows.now j tag) out.old out.new }
{
    let t = tag / 16;
    let v = tag % 16;
    writing::put_named(out, b" type ", t);
    writing::put_named(out, b" variant ", v);
    put_parts(out, rows, j, arity(types, t, v));
}

// The value of a number's row, whose two numbers lie from `j` on.
fn row_value(rows: &[i32], j: usize) -> i64
    requires { j < 18446744073709551612 }
    ensures { result ≡ row_value rows.now j }
{
    let low = writing::number_at(rows, j);
    let high = writing::number_at(rows, j + 1);
    words::value_of(low, high)
}

// A number of this type: "A number's row holds −1 − t, then the low 32 bits as a signed number, then the value divided by
// 4,294,967,296 rounded down", here from number `j` on.
fn put_valued(out: &mut Writer, rows: &[i32], j: usize, t: u32)
    requires j_bound { j < 18446744073709551612 }
    requires has_room { HasRoom 77 out.old }
    ensures { Wrote 77 (value_text rows.now j t) out.old out.new }
{
    writing::put_named(out, b" type ", t);
    writing::put_bytes(out, b" number ");
    writing::put_value(out, row_value(rows, j));
}

// What row i says, which lies from number `j` on.
fn put_row_text(out: &mut Writer, types: &TypeTable, rows: &[i32], j: usize)
    requires arities_fit { AritiesFit types.now }
    requires j_bound { j < 18446744073709551611 }
    requires has_room { HasRoom 77 out.old }
    ensures { Wrote 77 (row_text (arity_in types.now) rows.now j) out.old out.new }
{
    let folded = numbers::fold_signed(writing::number_at(rows, j));
    if folded % 2 == 0 {
        put_message(out, types, rows, j + 1, folded / 2);
    } else {
        put_valued(out, rows, j + 1, folded / 2);
    }
}

fn put_row(out: &mut Writer, types: &TypeTable, rows: &[i32], i: u32)
    requires arities_fit { AritiesFit types.now }
    requires has_room { HasRoom 96 out.old }
    ensures { Wrote 96 (row_line (arity_in types.now) rows.now i) out.old out.new }
{
    writing::put_named(out, b"row ", i);
    put_row_text(out, types, rows, 4 * (i as usize));
    writing::put_bytes(out, b"\n");
}

pub fn put_rows(out: &mut Writer, types: &TypeTable, rows: &[i32], many: u32)
    requires arities_fit { AritiesFit types.now }
    requires has_room { HasRoom (96 * many) out.old }
    ensures { Wrote (96 * many) (concat_map (row_line (arity_in types.now) rows.now) (from many 0)) out.old out.new }
{
    for i in 0..many {
        put_row(out, types, rows, i);
    }
}
