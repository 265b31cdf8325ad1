// What the desk says of a guard within a budget, as one number, and what each number means. This crate has no code: specs/ holds the
// definitions, proofs/ the mathematics.
#![tactic(auto)]
