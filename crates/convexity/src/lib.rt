// Convexity: the two tables of the walk, the walk, and whether there is a road.
#![tactic(auto)]

pub mod convex;
pub mod road;
pub mod tables;
pub mod walk;

// The stage of a path: inside the selection it takes unselected operations only, once it has left it takes all.
#[derive(Clone, Copy)]
pub enum Stage {
    Inside,
    Outside,
}
