// Maps between two drawings: their validation, and whether they are injective.
#![tactic(auto)]

pub mod inputs;
pub mod monomorphism;
pub mod naturality;
pub mod validate;
