// Blocks built on closed sheets: adders, comparators, Gray decoders and state machines.
#![tactic(auto)]

pub mod build;
mod layout;
mod nets;
mod placing;
pub mod refusal;
