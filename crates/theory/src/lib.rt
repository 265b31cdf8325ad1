// The theorems about guards: satisfiable exactly if the search ends open, whatever the order of splitting.
// This crate has no code: specs/ says what is claimed of a tree and computes some, proofs/ holds the mathematics.
#![tactic(auto)]
