// What blocks are: the blocks themselves, the gates of each on a sheet, and what these mean in numbers.
#![tactic(auto)]

pub mod block;
