// Calendars whose stamps a script names by numbers: an hour by one, a week by two, a day by three.
ghost use Rattle.answers.specs.Parts.{count_of, names_day, names_hour, names_week};
ghost use Rattle.answers.specs.Stops.{RefusesParts};
ghost use Rattle.language.specs.declared.calendars.Parts.{Parts};
ghost use Rattle.std.specs.Prelude.{◌≡◌, ℕ, ◌≤◌, MatchResult};

use crate::stops::Stop;
use calendar::{Calendar, Hour, Printable};
use gregorian::{Day, Week};
use language::{Misread, Parts};

pub trait Parted: Printable {
    // How many numbers name a stamp.
    ghost taken: { ℕ };

    // The parts name the stamp at the place.
    ghost names: { Parts → ℕ → Type 0 };

    // The stamp that the parts name: 11 where they name none, and misread where there are more or
    // fewer of them than the calendar takes.
    fn named(parts: Parts) -> Result<Self, Stop>
        ensures { MatchResult result (λ s. names parts (Self.Calendar.place s)) (λ e. RefusesParts e (count_of parts) taken ((n : ℕ) → n ≤ Self.Calendar.LAST_PLACE → names parts n → ⊥)) };
}

// The three take parts apart alike, but each calendar has its number of them.
impl Parted for Hour {
    ghost taken = { 1 };

    ghost names = { names_hour };

    fn named(parts: Parts) -> Result<Hour, Stop> {
        match parts {
            Parts::One(count) => Ok(Hour::from_parts(count)?),
            _ => Err(Stop::Unread(Misread::WordCount)),
        }
    }
}

impl Parted for Day {
    ghost taken = { 3 };

    ghost names = { names_day };

    fn named(parts: Parts) -> Result<Day, Stop> {
        match parts {
            Parts::Three(year, month, day) => Ok(Day::from_parts(year, month, day)?),
            _ => Err(Stop::Unread(Misread::WordCount)),
        }
    }
}

impl Parted for Week {
    ghost taken = { 2 };

    ghost names = { names_week };

    fn named(parts: Parts) -> Result<Week, Stop> {
        match parts {
            Parts::Two(year, number) => Ok(Week::from_parts(year, number)?),
            _ => Err(Stop::Unread(Misread::WordCount)),
        }
    }
}
