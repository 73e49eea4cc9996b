// What is told of a fault, whichever layer found it.

/// A fault by its number, its place and its detail; where a fault has no place or no detail, that is 0.
// Numbers, and no enum: what is told of a fault is these three, in every layer and in the line that is written.
#[derive(Clone, Copy, Default, PartialEq, Eq)]
pub struct Report {
    pub number: u32,
    pub place: u32,
    pub detail: u32,
}
