// Numbers as the bytes of a file: how they are written, and that they are read back.
// This crate has no code: specs/ holds the definitions, proofs/ the mathematics.
#![tactic(auto)]
