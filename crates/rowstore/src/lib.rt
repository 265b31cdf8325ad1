// Rows of messages in a lent buffer, four signed numbers each. A message has one row: it is found, or appended.
// `specs/` says what each function computes.
#![tactic(auto)]

ghost use Rattle.std.specs.Prelude.{◌≡◌, [], ◌∷◌, ◌+◌, ◌*◌, ◌≤◌, length, take, drop};
ghost use Rattle.rowstore.specs.Store.{appended, row_found, same_numbers, with_row};

// Whether the row that starts at `at` has these numbers.
fn is_row(rows: &[i32], at: usize, tag: i32, a: i32, b: i32, c: i32) -> bool
    requires { at + 4 ≤ length rows.now }
    ensures { result ≡ same_numbers (take 4 (drop at rows.now)) (tag ∷ a ∷ b ∷ c ∷ []) }
{
    if rows[at] != tag {
        return false;
    }
    let second = at + 1;
    if rows[second] != a {
        return false;
    }
    let third = at + 2;
    if rows[third] != b {
        return false;
    }
    let fourth = at + 3;
    rows[fourth] == c
}

// The lowest row from `start` on with these numbers, of the first `many`; else `many`.
fn find_row(rows: &[i32], start: usize, many: usize, tag: i32, a: i32, b: i32, c: i32) -> usize
    requires { 4 * many ≤ length rows.now }
    ensures { result ≡ row_found rows.now start many (tag ∷ a ∷ b ∷ c ∷ []) }
{
    for i in start..many {
        if is_row(rows, 4 * i, tag, a, b, c) {
            return i;
        }
    }
    many
}

// These numbers in row `many`.
fn append(rows: &mut [i32], many: usize, tag: i32, a: i32, b: i32, c: i32)
    requires { 4 * many + 4 ≤ length rows.old }
    ensures { rows.new ≡ appended rows.old many (tag ∷ a ∷ b ∷ c ∷ []) }
{
    let at = 4 * many;
    rows[at] = tag;
    let second = at + 1;
    rows[second] = a;
    let third = at + 2;
    rows[third] = b;
    let fourth = at + 3;
    rows[fourth] = c;
}

// The row of these numbers among the first `many`, looked for from `start` on: the caller knows that no row below has
// them, as the parts of a message lie lower than the message. Where there is none it is row `many`, which gets them.
pub fn row_of(
    rows: &mut [i32],
    start: usize,
    many: usize,
    tag: i32,
    a: i32,
    b: i32,
    c: i32,
) -> usize
    requires { 4 * many + 4 ≤ length rows.old }
    ensures value { result ≡ row_found rows.old start many (tag ∷ a ∷ b ∷ c ∷ []) }
    ensures rows_after { rows.new ≡ with_row rows.old many result (tag ∷ a ∷ b ∷ c ∷ []) }
{
    let r = find_row(rows, start, many, tag, a, b, c);
    if r < many {
        return r;
    }
    append(rows, many, tag, a, b, c);
    many
}
