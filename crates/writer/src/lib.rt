#![tactic(auto)]

mod sink;
pub mod writer;
