// The memories that are built: write-back on two tables, write-through on one.
#![tactic(auto)]

pub mod tables;
pub mod write_back;
pub mod write_through;
