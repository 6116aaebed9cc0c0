// Reads a job: its records in their order, and what they say.
#![tactic(auto)]

mod draft;
pub mod fault;
pub mod numbers;
pub mod order;
pub mod question;
pub mod read;
pub mod record;
pub mod sheet;
pub mod split;
pub mod turn;
