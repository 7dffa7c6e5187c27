// What the calendars answer on examples whose answers are known from elsewhere, sets of places, and what a script is
// answered with.
mod dates;
mod orders;
mod sessions;
mod sets;
mod stamp_texts;
mod weeks;

use calendar::{Calendar, Refusal};

// The place of the stamp that a call gave, or why it was refused.
fn answer<T: Calendar>(res: Result<T, Refusal>) -> Result<u32, Refusal> {
    res.map(|stamp| stamp.place())
}
