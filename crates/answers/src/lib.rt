#![tactic(auto)]

// What each command of the script language answers on a calendar.
pub mod answers;
pub mod calendars;
pub mod parted;
pub mod points;
pub mod replies;
pub mod stops;

pub use answers::answer;
pub use replies::Reply;
pub use stops::Stop;
