// The product run: two listings under an operator, driven by any queue, and the run followed by reduction.
// All working space is the caller's: rows, and the queue's slots.

#![tactic(auto)]

pub mod faults;
mod operands;
mod reading;
mod requests;
pub mod running;
