// The masks of a guard's summary (request #114), from its tables: a number for each variant of each row, and two bits by it.
// `specs/Masks.antt` says what each is.
#![tactic(auto)]

ghost use Rattle.std.specs.Prelude.{◌≡◌, cond, [], ◌∷◌, ◌<◌, ◌≤◌, ◌^◌, length};
ghost use Rattle.guard.specs.Guard.{Literal.is};
ghost use Rattle.tables.specs.Layout.{literal_table};
ghost use Rattle.summaries.specs.InTables.{SomeGuard, longer};
ghost use Rattle.summaries.specs.Summary.{ruled_out, summary_length};
ghost use Rattle.variantmasks.specs.Masks.{Fills, HasVariant, MasksOf, NumberOf, VariantsOf};

use tables::{LiteralTable, RowTable, TypeTable};
use verdicts::verdict_on;

// The masks of a row: the variants settled, and those of them that can occur.
#[derive(Clone, Copy)]
struct Masks {
    settled: u16,
    possible: u16,
}

// The table of one line: the term is of that variant.
fn is_line(term: u8, variant: u8) -> LiteralTable
    ensures { result ≡ literal_table (is term variant ∷ []) }
{
    let mut kinds = [0u8; 64];
    let mut terms = [0u8; 64];
    let mut others = [0u8; 64];
    kinds[0] = 2;
    terms[0] = term;
    others[0] = variant;
    LiteralTable {
        many: 1,
        kinds,
        terms,
        others,
    }
}

// How many variants are told of a row: none of a missing one, or of one of number type.
fn variants_of(types: TypeTable, rows: RowTable, i: u8) -> u8
    ensures { VariantsOf types rows i result }
{
    if (i as usize) < rows.many {
        let sorts = rows.types;
        let counts = types.variants;
        return columns::at(&counts, columns::at(&sorts, i as u16) as u16);
    }
    0
}

fn ruled_out(settled: u16, possible: u16, v: u32) -> bool
    requires { v < 16 }
    ensures { result ≡ ruled_out settled possible v }
{
    if labels::lacks(settled, v) {
        return false;
    }
    labels::lacks(possible, v)
}

// 2 for a variant that the masks rule out; for any other what the desk says of the guard with the line of it.
fn number_of(
    types: TypeTable,
    rows: RowTable,
    lines: LiteralTable,
    budget: u32,
    i: u8,
    v: u8,
    settled: u16,
    possible: u16,
) -> u8
    requires { HasVariant types rows lines i v }
    ensures { NumberOf types rows lines budget i v settled possible result }
{
    if ruled_out(settled, possible, v as u32) {
        return 2;
    }
    verdict_on(&types, &rows, &lines, &is_line(i, v), budget).code()
}

fn bit_if(test: bool, v: u8) -> u16
    requires { v < 16 }
    ensures { result ≡ cond test (2 ^ v) 0 }
{
    columns::choose(test, labels::only(v as u32), 0)
}

// The masks of a row, by those that it had.
fn row_masks(
    types: TypeTable,
    rows: RowTable,
    lines: LiteralTable,
    budget: u32,
    i: u8,
    settled: u16,
    possible: u16,
) -> Masks
    requires { SomeGuard longer types rows lines }
    ensures { MasksOf types rows lines budget i settled possible result }
{
    let many = variants_of(types, rows, i);
    let mut known: u16 = 0;
    let mut there: u16 = 0;
    for v in 0..many {
        let n = number_of(types, rows, lines, budget, i, v, settled, possible);
        known += bit_if(n != 3, v);
        there += bit_if(n == 1, v);
    }
    Masks {
        settled: known,
        possible: there,
    }
}

// The summary, made anew or by what it was; what follows it stays.
pub fn fill(
    types: TypeTable,
    rows: RowTable,
    lines: LiteralTable,
    budget: u32,
    anew: bool,
    summary: &mut [u16],
)
    requires some_guard { SomeGuard longer types rows lines }
    requires summary_length_in_bounds { summary_length ≤ length summary.old }
    ensures { Fills types rows lines budget anew summary.old summary.new }
{
    for i in 0..24 {
        let k = 2 * i;
        let old = columns::choose(anew, 0, summary[k]);
        let m = row_masks(types, rows, lines, budget, i as u8, old, summary[k + 1]);
        summary[k] = m.settled;
        summary[k + 1] = m.possible;
    }
}
