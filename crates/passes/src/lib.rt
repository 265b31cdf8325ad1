// What a pass of the saturation has to show: see `specs/Pass.antt`.
#![tactic(auto)]
