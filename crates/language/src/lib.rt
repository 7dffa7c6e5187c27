#![tactic(auto)]

// The panel's script language as it is read: a line is cut into words, and the words spell a command.
pub mod calendars;
pub mod commands;
pub mod languages;
pub mod memory;
pub mod misreads;
pub mod points;
pub mod words;

pub use calendars::{CalendarCommand, Kind, Parts};
pub use commands::Command;
pub use languages::{Calendars, Language, Points};
pub use misreads::Misread;
pub use points::{Comparison, Ends, PointCommand};
