// The branches of a procedure, over one set of types and terms (request #113): the file, the questions put to the desk, and what is told of them.
// This crate has no code: specs/ holds the definitions, proofs/ the mathematics.
#![tactic(auto)]
