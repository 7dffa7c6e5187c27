#![tactic(auto)]

// Sets of reference stamps, by their places: at most sixteen ranges, and the operations on them.
pub mod operations;
pub mod ranges;
pub mod sets;
mod sweep;

pub use ranges::Ranges;
pub use sets::{Range, ReferenceSet};
