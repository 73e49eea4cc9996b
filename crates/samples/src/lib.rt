// What is tried rather than proved: tables of cases over the public calls.

#![tactic(auto)]

#[cfg(test)]
mod normalized;
#[cfg(test)]
mod stacked;
#[cfg(test)]
mod texts;
#[cfg(test)]
mod written;
