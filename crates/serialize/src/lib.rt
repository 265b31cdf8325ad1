// Guard files as lists of numbers: in which order, which questions are asked of a list, and that bytes and lists carry the same guards.
// This crate has no code: specs/ holds the definitions, proofs/ the mathematics.
#![tactic(auto)]
