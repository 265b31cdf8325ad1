// Lent buffers set to zeros.
#![tactic(auto)]

ghost use Rattle.std.specs.Prelude.{◌≡◌, pos, length, replicate};

// Sets every number to 0.
pub fn clear(numbers: &mut [i32])
    ensures { numbers.new ≡ replicate (length numbers.old) (pos 0) }
{
    numbers.fill(0);
}

// Both buffers of a call.
pub fn clear_both(rows: &mut [i32], places: &mut [i32])
    ensures rows_after { rows.new ≡ replicate (length rows.old) (pos 0) }
    ensures places_after { places.new ≡ replicate (length places.old) (pos 0) }
{
    clear(rows);
    clear(places);
}
