// Values: how they stand in words, the arithmetic of scalars, and the pops that the machine's arms share.
#![tactic(auto)]

pub mod words; // words.rt: values and cells in stores, two words to a place
pub mod scalars; // scalars.rt: one binary64 operation each
pub mod pops; // pops.rt: operands from the top of a stack
