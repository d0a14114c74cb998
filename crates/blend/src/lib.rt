#![tactic(auto)]

pub mod blend;
