// Listings as text, written: `writing` writes any source's listing, `reporting` the line of a fault, `faults` says what a
// buffer that is too short is refused with. What is written opens again and tells the same.

#![tactic(auto)]

pub mod faults;
pub mod reporting;
pub mod writing;
