// General laws on lists, Booleans, bits and numbers. This crate has no code: specs/ holds
// the list functions, proofs/ what is proved of them.
#![tactic(auto)]
