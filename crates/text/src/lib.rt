// Listings as text, read: lines of decimal numbers in columns of fixed width. docs/FORMATS.md has the layout.
// `columns` reads one column, `opening` checks a whole text and shows it as a source, `summary` counts what it has,
// `faults` says what a text that is not well formed is refused with. Crate `text_writing` writes texts.

#![tactic(auto)]

mod columns;
pub mod faults;
pub mod opening;
pub mod summary;
