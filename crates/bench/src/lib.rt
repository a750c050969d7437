// A bench: programs loaded from texts and evaluated, over any value domain.
#![tactic(auto)]

pub mod bench;
pub mod fault;
