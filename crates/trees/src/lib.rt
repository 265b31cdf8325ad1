// Search trees by any permitted splits: the rules that choose these, how many nodes the trees have, and that the counted search visits one of them.
// This crate has no code: specs/ holds the definitions, proofs/ the mathematics.
#![tactic(auto)]
