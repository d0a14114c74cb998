#![tactic(auto)]

pub mod index;
