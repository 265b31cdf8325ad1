// Two guards as one, for a procedure nested in another: what is merged, when it is refused, and that an assignment satisfies the
// merged guard exactly if its parts satisfy the two. This crate has no code: specs/ holds the definitions, proofs/ the mathematics.
#![tactic(auto)]
