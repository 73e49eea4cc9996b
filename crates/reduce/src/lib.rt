// From rows to the normal form: reduction, and the core of loading a listing.

#![tactic(auto)]

mod arrange;
pub mod faults;
pub mod loading;
pub mod reduce_rows;
mod settle;
mod starts;
