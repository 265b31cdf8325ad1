// Labels: sets of variants as masks of 16 bits, variant v at bit v.
#![tactic(auto)]

ghost use Rattle.std.specs.Prelude.{◌≡◌, ◌||◌, ◌<◌, ◌^◌, eqb, length, get_or};
ghost use Rattle.laws.specs.Bits.{bit};
ghost use Rattle.labels.specs.Label.{variants_in};

// The label of one variant.
pub fn only(v: u32) -> u16
    requires { v < 16 }
    ensures { result ≡ 2 ^ v }
{
    1u16 << v
}

pub fn lacks(label: u16, v: u32) -> bool
    requires { v < 16 }
    ensures { result ≡ eqb (bit label v) 0 }
{
    label & (1u16 << v) == 0
}

// An emptied label counts as each one variant alone.
pub fn is_alone(label: u16, v: u32) -> bool
    requires { v < 16 }
    ensures { result ≡ (eqb label (2 ^ v) || eqb label 0) }
{
    label == 1u16 << v || label == 0
}

// How many variants are left: the ones of the mask.
pub fn size(label: u16) -> u32
    ensures { result ≡ length (variants_in label) }
{
    u16::count_ones(label)
}

// The lowest variant left; 16 where there is none.
pub fn lowest(label: u16) -> u32
    ensures { result ≡ get_or (variants_in label) 0 16 }
{
    u16::trailing_zeros(label)
}
