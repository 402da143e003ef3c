// Prefix graphs: sheets of columns and joins, and what is asked of them.
#![tactic(auto)]

pub mod node;
pub mod sheet;
