#![tactic(auto)]

pub mod dna;
