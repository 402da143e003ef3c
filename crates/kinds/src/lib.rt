// Element kinds: what a prefix network computes with.
#![tactic(auto)]

pub mod carry;
pub mod elements;
pub mod fold;
pub mod kind;
pub mod map;
mod maptable;
pub mod parity;
pub mod template;
pub mod verdict;
