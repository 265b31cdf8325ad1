// Tables that hold the types, the rows or the literals of a well-formed guard: what writers of parts of a guard file ask of them.
// This crate has no code.
#![tactic(auto)]
