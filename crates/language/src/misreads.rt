// Why a line is no command. Such a line changes nothing, and the script goes on.
ghost use Rattle.language.specs.Misreads.{sentence};
ghost use Rattle.std.specs.Prelude.{Some};

use std::error::Error;
use std::fmt;

#[derive(Clone, Copy, Debug, PartialEq, Eq)]
pub enum Misread {
    // The first word is no command.
    UnknownCommand,
    // The command takes another number of words.
    WordCount,
    // A word that should be a number is none, or the number does not fit 32 bits.
    NoNumber,
    // The word names no calendar.
    UnknownCalendar,
    // The word names no comparison of points.
    UnknownComparison,
    // The word names no relation of intervals.
    UnknownRelation,
    // The command needs a calendar, and none is chosen yet.
    CalendarFirst,
}

// What to write in place of the line.
impl fmt::Display for Misread {
    ghost output = { λ m. Some (sentence m) };

    fn fmt<W: fmt::Write>(&self, f: &mut fmt::Formatter<W>) -> fmt::Result {
        f.write_str(match self {
            Misread::UnknownCommand => "no such command; help lists them",
            Misread::WordCount => "too many or too few words; help shows the form",
            Misread::NoNumber => "a number is written in digits and is at most 4294967295",
            Misread::UnknownCalendar => "the calendars are hours, days and weeks",
            Misread::UnknownComparison => "points are compared by before, equal and at-most",
            Misread::UnknownRelation => {
                "the relations are before, meets, overlaps, during and equals"
            }
            Misread::CalendarFirst => {
                "choose a calendar first: calendar hours, calendar days or calendar weeks"
            }
        })
    }
}

impl Error for Misread {}

impl Misread {
    // Why words are no command that have not the form of one: their number is wrong, or the first of
    // them is no keyword.
    pub(crate) fn of(words: &[&str]) -> Misread {
        match words {
            [
                "calendar"
                | "help"
                | "place"
                | "stamp"
                | "parts"
                | "point"
                | "bind"
                | "lesser"
                | "greater"
                | "compare"
                | "relation"
                | "holds",
                ..
            ] => Misread::WordCount,
            _ => Misread::UnknownCommand,
        }
    }
}
