#![tactic(auto)]

pub mod runtime;
