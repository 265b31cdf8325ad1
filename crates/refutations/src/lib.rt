// Records of closed searches, and the checker that reads them against a guard.
// This crate has no code: specs/ holds the definitions, proofs/ the mathematics.
#![tactic(auto)]
