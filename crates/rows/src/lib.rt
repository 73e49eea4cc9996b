// Work rows, one a record, and the rule check over any source, which fills them. Crate `reduce` makes rows normal.

#![tactic(auto)]

pub mod checking;
pub mod faults;
mod filling;
mod marks;
mod places;
pub mod row;
mod rules;
