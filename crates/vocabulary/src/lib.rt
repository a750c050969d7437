// The words of rules and programs: operations, marks and their names.
#![tactic(auto)]

pub mod marks;
pub mod operation;
