// A program in lent stores: its good order, and searches by name.
#![tactic(auto)]

pub mod names; // names.rt: searches by name
pub mod order; // order.rt: good order
