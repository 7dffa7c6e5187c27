#![tactic(auto)]

// Points that move with "now" and intervals between them, typed by their calendar, and the sets of
// reference stamps at which their comparisons and relations hold.
pub mod intervals;
pub mod points;

pub use intervals::Interval;
pub use points::Point;
pub use spans::Relation;
