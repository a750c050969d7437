// The program last loaded: its instructions in the records of a table, chained in order, and the free records.
#![tactic(auto)]

mod codes;
pub mod fault;
mod record;
pub mod table;
