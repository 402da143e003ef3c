#![tactic(auto)]
// Netlists of small gates, and the values of their signals.
pub mod gate;
pub mod refusal;
pub mod simulation;
pub mod value;
