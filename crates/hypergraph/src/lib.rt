// Drawings: their checks, converses and adjacencies, and the table of their incidence graph.
#![tactic(auto)]

pub mod adjacency;
pub mod check;
pub mod converse;
pub mod incidence;
