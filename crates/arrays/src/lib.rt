// The arrays that the search reads, for a guard, and what stands in each slot: see `specs/Arrays.antt` and `specs/Slots.antt`.
#![tactic(auto)]
