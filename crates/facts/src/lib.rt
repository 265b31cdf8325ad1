// Facts added to a state one after the other: see `proofs/Adding.antt`.
#![tactic(auto)]
