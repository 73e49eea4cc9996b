// A text made normal: the text is opened, its listing loaded, and the normal listing written as text again.

#![tactic(auto)]

pub mod faults;
pub mod texts;
