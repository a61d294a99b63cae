// What stands where in the stores, and how a store is written.
#![tactic(auto)]

pub mod lent; // lent.rt: a program's stores, as a host lends them
pub mod reads; // reads.rt: words, parts and rooms
pub mod writes; // writes.rt: a store written from a place on
pub mod ordered; // ordered.rt: the order of struct names, searched by halves
