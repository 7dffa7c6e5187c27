#![tactic(auto)]

// Calendars as bounded orders of stamps, how a stamp is written and read, the calendar of running
// hours, and the closed list of refusals that every crate of the library answers with.
pub mod decimal;
pub mod hours;
pub mod orders;
pub mod refusals;
pub mod writing;

pub use hours::Hour;
pub use orders::Calendar;
pub use refusals::Refusal;
pub use writing::{Printable, Text};
