// Numbers that pass a test: the lowest, or whether there is one. `specs/Lowest.antt` says what is found.
#![tactic(auto)]

ghost use Rattle.std.specs.Prelude.{◌<◌};
ghost use Rattle.loops.specs.Lowest.{FirstPassing, SomePassing};

// The lowest number below `n` that passes; none where none does.
pub fn lowest<F: Fn(usize) -> bool>(n: usize, passes: F) -> Option<usize>
    requires { (k : _) → k < n → F.pre passes k }
    ensures { FirstPassing (F.post passes) n result }
{
    for k in 0..n {
        if passes(k) {
            return Some(k);
        }
    }
    None
}

// Whether a number below `n` passes.
pub fn any<F: Fn(usize) -> bool>(n: usize, passes: F) -> bool
    requires { (k : _) → k < n → F.pre passes k }
    ensures { SomePassing (F.post passes) n result }
{
    lowest(n, passes).is_some()
}
