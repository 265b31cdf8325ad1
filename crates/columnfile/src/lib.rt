// Guard files with their term rows by column, for slow memory (request #111): what is stored, what is asked on the way back, and that
// the way back gives the original bytes. This crate has no code: specs/ holds the definitions, proofs/ the mathematics.
#![tactic(auto)]
