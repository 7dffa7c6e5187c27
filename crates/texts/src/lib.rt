#![tactic(auto)]

// Answers as the text that a transcript shows.
pub mod sets;
pub mod texts;

pub use sets::SetText;
pub use texts::shown;
