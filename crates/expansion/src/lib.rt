// Expansions of closed sheets into gates, with the template of any kind.
#![tactic(auto)]

pub mod expand;
