// Layers over any value domain, each again a domain: one traps where a mark is broken, the other gives poison.
#![tactic(auto)]

mod layer;
pub mod poison;
pub mod trap;
