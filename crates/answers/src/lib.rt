// What the calls on a sheet take and answer, with its numbers and in words: families, measures, refusals.
#![tactic(auto)]

pub mod family;
pub mod measure;
pub mod refusal;
