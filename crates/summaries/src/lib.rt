// A summary kept with each guard (request #114): which variants its rows can have, made anew and kept as lines are added, and what is asked of a
// file and of an added line. This crate has no code: specs/ holds the definitions, proofs/ the mathematics.
#![tactic(auto)]
