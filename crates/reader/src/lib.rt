// Reads the texts of programs in place; of rules it tells the forms of lines alone.
#![tactic(auto)]

pub mod facts;
pub mod fault;
pub mod form;
pub mod instruction;
pub mod names;
pub mod program;
pub mod scope;
pub mod token;
pub mod written;
