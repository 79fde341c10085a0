// Layers of a drawing's operations.
#![tactic(auto)]

pub mod layer;
pub mod lookup;
