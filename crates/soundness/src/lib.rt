// Soundness of the search: a closed node has no model, and every split keeps a model in one child.
// This crate has no code: proofs/ holds the mathematics.
#![tactic(auto)]
