// Messages for the classes of an open node that nothing fixes: how they grow, and why they differ from all others.
// This crate has no code: proofs/ holds the mathematics.
#![tactic(auto)]
