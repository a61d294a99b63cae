// The arms over scalars and booleans.
#![tactic(auto)]

pub mod scalars; // scalars.rt: arithmetic and orderings
pub mod logic; // logic.rt: booleans and jumps
