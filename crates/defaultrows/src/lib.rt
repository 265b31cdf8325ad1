// Rows of defaults, drawn on demand, and of the parts of a variant: one of them given, defaults in the other fields.
#![tactic(auto)]

ghost use Rattle.std.specs.Prelude.{◌<◌, length};
ghost use Rattle.guard.specs.Types.{default_of, fields_of, variants_of};
ghost use Rattle.guard.proofs.MessageLaws.{message_size};
ghost use Rattle.forms.specs.Forms.{FormsFit, types_in};
ghost use Rattle.drawnrows.specs.Drawing.{Drew, Given, Parted, Room, Sparing, Store, default_sizes};

use drawnrows::Drawn;
use forms::Forms;

// The rows of a message's parts, zeros behind, and how many rows there are then.
#[derive(Clone, Copy)]
pub struct PartRows {
    pub rows: [usize; 3],
    pub many: usize,
}

// The rows of the parts of variant `v` of type `t`: `row` in field `c`, if there is such a field, defaults in the others.
#[cycle(default_row_parts)]
pub fn parts(
    forms: Forms,
    rows: &mut [i32],
    drawn: &mut [u16; 6],
    many: usize,
    t: u8,
    v: u8,
    c: u8,
    row: usize,
) -> PartRows
    requires forms_fit { FormsFit forms }
    requires store { Store (types_in forms) rows.old many drawn.old }
    requires room { Room rows.old many drawn.old 0 }
    requires t_in_bounds { t < length (types_in forms) }
    requires v_in_bounds { v < length (variants_of (types_in forms) t) }
    requires given { Given (types_in forms) rows.old many (fields_of (types_in forms) t v) c row }
    ensures parted { Parted (types_in forms) (fields_of (types_in forms) t v) c row rows.old many drawn.old (length (fields_of (types_in forms) t v)) result.rows rows.new result.many drawn.new }
    ensures sparing { Sparing (types_in forms) drawn.old (default_sizes (types_in forms) (fields_of (types_in forms) t v)) drawn.new }
{
    let n = forms::arity(forms, t, v) as usize;
    let mut list = [0usize; 3];
    let mut count = many;
    for p in 0..n {
        if p == c as usize {
            list[p] = row;
            continue;
        }
        let s = forms::sort(forms, t, v, p);
        let known = drawn[s as usize] as usize;
        if 0 < known {
            list[p] = known - 1;
            continue;
        }
        let d = default_row(forms, rows, drawn, count, s);
        list[p] = d.row;
        count = d.many;
    }
    PartRows {
        rows: list,
        many: count,
    }
}

// The default of type `t`: its row is noted, so that it is drawn once. A default lies deeper than those of its parts.
#[cycle(default_row_parts)]
pub fn default_row(
    forms: Forms,
    rows: &mut [i32],
    drawn: &mut [u16; 6],
    many: usize,
    t: u8,
) -> Drawn
    requires forms_fit { FormsFit forms }
    requires store { Store (types_in forms) rows.old many drawn.old }
    requires room { Room rows.old many drawn.old 0 }
    requires t_in_bounds { t < length (types_in forms) }
    ensures drew { Drew (types_in forms) rows.old many drawn.old 0 (default_of (types_in forms) t) rows.new result.many drawn.new result.row }
    ensures sparing { Sparing (types_in forms) drawn.old (message_size (default_of (types_in forms) t)) drawn.new }
{
    let known = drawn[t as usize] as usize;
    if 0 < known {
        return Drawn {
            row: known - 1,
            many,
        };
    }
    let table = forms.table;
    if table.variants[t as usize] == 0 {
        let d = drawnrows::number_row(rows, many, t, 0);
        drawn[t as usize] = (d.row + 1) as u16;
        return d;
    }
    let v = forms.defaults[t as usize];
    let p = parts(forms, rows, drawn, many, t, v, 3, 0);
    let list = p.rows;
    let d = drawnrows::made_row(rows, p.many, 0, t, v, list);
    drawn[t as usize] = (d.row + 1) as u16;
    d
}
