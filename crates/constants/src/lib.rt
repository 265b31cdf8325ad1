// The constants of a guard by their slots: 24 rows, then the defaults of number types.
#![tactic(auto)]

ghost use Rattle.std.specs.Prelude.{◌≡◌, ◌<◌, get_or};
ghost use Rattle.constants.specs.Constants.{constant_term, constant_value};

// The type of the constant in each slot plus one, or 0 where there is none, and the value of each row's.
#[derive(Clone, Copy)]
pub struct Constants {
    pub sorts: [u8; 32],
    pub values: [i64; 24],
}

// The term of slot `k`: row `k`, or the default of type `k - 24`.
#[tactic(auto, unfolding(crate::specs::Constants::constant_term))]
pub fn constant_term(k: usize) -> u8
    requires { k < 30 }
    ensures value { result ≡ constant_term k }
    ensures there { result < 96 }
{
    if k < 24 {
        return k as u8;
    }
    (k + 48) as u8
}

impl Constants {
    // The type of the constant in slot `k` plus one; 0 where there is none.
    pub fn sort(&self, k: usize) -> u8
        requires { k < 30 }
        ensures { result ≡ get_or self.now.sorts k 0 }
    {
        self.sorts[k]
    }

    // The value of the constant in slot `k`, 0 for a default.
    #[tactic(auto, unfolding(crate::specs::Constants::constant_value))]
    pub fn value(&self, k: usize) -> i64
        ensures { result ≡ constant_value self.now.values k }
    {
        self.values.get(k).copied().unwrap_or(0)
    }
}
