// Refusals as data. No function: the crate is mathematics, and `specs/Refusals.antt` has it.
#![tactic(auto)]
