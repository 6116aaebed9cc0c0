// The lists of cells that a job works on.
#![tactic(auto)]

pub mod block;
pub mod working;
