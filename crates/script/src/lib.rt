#![tactic(auto)]

// A session of the panel: the chosen calendar, and the reply to each line of a script.
pub mod sessions;

pub use language::{Calendars, Points};
pub use sessions::{Session, is_passed_over};
