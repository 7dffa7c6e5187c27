#![tactic(auto)]

// Points and intervals by their places: what they come to at a reference place, and the sets of
// reference places at which their comparisons and relations hold. Plain numbers, no calendar: the
// crate `ongoing` has the same by stamps.
pub mod binding;
mod comparisons;
pub mod extents;
pub mod relations;
pub mod spans;
mod stretches;

pub use extents::Extent;
pub use relations::Relation;
pub use spans::{Period, Span};
