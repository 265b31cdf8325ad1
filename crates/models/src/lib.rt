// An open node of the search has a model: messages for its classes under which the guard holds.
// This crate has no code: proofs/ holds the mathematics.
#![tactic(auto)]
