#![tactic(auto)]

pub mod writable;
