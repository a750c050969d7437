// The cases of a rule tried in their order over any value domain, for the first that refutes it.
#![tactic(auto)]

pub mod case;
mod codes;
pub mod number;
pub mod search;
mod side;
