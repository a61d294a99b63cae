// The arms: one function for each family of opcodes, over plain words and lent slices. What they share, and those that push a value or change the frame;
// scalars and booleans are run_scalars, lists and structs run_blocks.
#![tactic(auto)]

use model::{Fault, Value};

pub mod pushes; // pushes.rt: constants, slots, the last result
pub mod frames; // frames.rt: calls and returns; the frames themselves are the run's

// What no step changes: the counts of the program, the rooms of stack and frames, the units that the run was given in all, and whether it is strict.
#[derive(Clone, Copy)]
pub struct Fixed {
    pub constants: usize,
    pub structs: usize,
    pub functions: usize,
    pub slots: usize,
    pub frames: usize,
    pub given: u64,
    pub strict: bool,
}

// What a step changes, in plain words: the values on the stack, the current frame (but when it was entered, which the run has), how many callers it
// has, the cells taken, the units that the run has spent, and the last result as a kind and a payload (kind 7: none). `mark` is how many cells were
// taken at the run's last root Return, or at its start, and `returns` how many there were.
#[derive(Clone, Copy)]
pub struct Going {
    pub sp: usize,
    pub function: usize,
    pub position: usize,
    pub base: usize,
    pub callers: usize,
    pub used: usize,
    pub spent: u64,
    pub kind: u64,
    pub payload: u64,
    pub mark: usize,
    pub returns: u64,
}

// A completed root Return: the machine after it, which has yet to take its value for the last result, and that value.
#[derive(Clone, Copy)]
pub struct Completed {
    pub going: Going,
    pub value: Value,
}

// What a step answers. Call: the function to enter and its base. Back: a Return to the caller, whose frame the run has. Short: the units that are
// left do not pay for the step, which has written nothing.
#[derive(Clone, Copy)]
pub enum Answer {
    Went(Going),
    Returned(Completed),
    Call(Going, usize, usize),
    Back(Going),
    Stopped(Going, Fault),
    Short(Going),
}
