// Runs of closed sheets over the elements of any kind.
#![tactic(auto)]

pub mod run;
