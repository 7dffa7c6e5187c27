// Commands that ask about a calendar.
ghost use Rattle.language.specs.Calendars.{Number, KindRead, PartsRead, CalendarRead};
ghost use Rattle.language.specs.Words.{texts};
ghost use Rattle.std.specs.Prelude.{ℕ, MatchResult};

use crate::misreads::Misread;
use calendar::decimal::number;
use std::str::FromStr;

// The calendars that a script can choose.
#[derive(Clone, Copy)]
pub enum Kind {
    Hours,
    Days,
    Weeks,
}

// The calendar that the word names. Takes a step for each byte.
impl FromStr for Kind {
    type Err = Misread;

    ghost from_str_gives = { KindRead };

    fn from_str(word: &str) -> Result<Kind, Misread> {
        match word {
            "hours" => Ok(Kind::Hours),
            "days" => Ok(Kind::Days),
            "weeks" => Ok(Kind::Weeks),
            _ => Err(Misread::UnknownCalendar),
        }
    }
}

// The numbers by which a script names a stamp.
#[derive(Clone, Copy)]
pub enum Parts {
    One(u32),
    Two(u32, u32),
    Three(u32, u32, u32),
}

// The number that the word writes.
fn numeral(word: &str) -> Result<u32, Misread>
    ensures { MatchResult result (λ n. Number word.now n) (λ _. (n : ℕ) → Number word.now n → ⊥) }
{
    number(word.as_bytes()).ok_or(Misread::NoNumber)
}

// The parts that the words give, if they are one number or two or three. Takes a step for each byte.
impl TryFrom<&[&str]> for Parts {
    type Error = Misread;

    ghost try_from_gives = { λ ws. PartsRead (texts ws.now) };

    fn try_from(words: &[&str]) -> Result<Parts, Misread> {
        match words {
            [a] => Ok(Parts::One(numeral(a)?)),
            [a, b] => Ok(Parts::Two(numeral(a)?, numeral(b)?)),
            [a, b, c] => Ok(Parts::Three(numeral(a)?, numeral(b)?, numeral(c)?)),
            _ => Err(Misread::WordCount),
        }
    }
}

#[derive(Clone, Copy)]
pub enum CalendarCommand<'a> {
    // The place of the stamp with that text.
    Place(&'a str),
    // The stamp at that place.
    Stamp(u32),
    // The stamp that the parts name.
    Named(Parts),
}

// The command on a calendar that the words spell. Takes a step for each byte.
impl<'a> TryFrom<&[&'a str]> for CalendarCommand<'a> {
    type Error = Misread;

    ghost try_from_gives = { λ ws. CalendarRead (texts ws.now) };

    fn try_from(words: &[&'a str]) -> Result<CalendarCommand<'a>, Misread> {
        match words {
            ["place", text] => Ok(CalendarCommand::Place(text)),
            ["stamp", place] => Ok(CalendarCommand::Stamp(numeral(place)?)),
            ["parts", numbers @ ..] => Ok(CalendarCommand::Named(Parts::try_from(numbers)?)),
            _ => Err(Misread::of(words)),
        }
    }
}
