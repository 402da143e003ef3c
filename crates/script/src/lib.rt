// The calls of a sheet script, served one by one on a sheet and the closed sheet that stands on it.
#![tactic(auto)]

pub mod answer;
pub mod call;
pub mod drawing;
pub mod serving;
