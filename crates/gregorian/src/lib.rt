#![tactic(auto)]

// The Gregorian days and the weeks of ISO 8601 from 1900 to 2199, as calendars whose stamps are
// written.
pub mod days;
pub mod weeks;
mod years;

pub use days::Day;
pub use weeks::Week;
