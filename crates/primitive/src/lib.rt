// Primitive values and their names: parsers/primitive.rs of the Rust.
#![tactic(auto)]

pub mod primitive;
