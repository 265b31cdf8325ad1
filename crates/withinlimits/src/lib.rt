// Files within smaller limits: definitions and laws, no code. `specs/Within.antt` says when a file is within limits, `proofs/SameAnswer.antt`
// that it then gets the same answer under any larger ones.
#![tactic(auto)]
