// Weeks of ISO 8601, from 1900-W01 to 2199-W52. A week belongs to the year of its Thursday.
ghost use Rattle.gregorian.specs.Weeks.{week, week_at, week_text, week_width, week_start, last_week, Counted, Stepped, OnePlace, Thursdays, Ended, LongYear};
ghost use Rattle.calendar.specs.Refusals.{number_of};
ghost use Rattle.std.specs.Prelude.{◌≡◌, ℕ, ◌<◌, ◌≤◌, MatchResult, ◌≢◌};
ghost use Rattle.std.proofs.Common.{rules};
ghost use Rattle.gregorian.specs.WeekTexts.{text_place};

use crate::years::{FIRST_YEAR, LAST_YEAR, year_of, year_start};
use calendar::decimal::{digit, number};
use calendar::{Calendar, Printable, Refusal};

// A week, by how many weeks lie between it and 1900-W01: that is its place. 2020-W53 has place 6,313.
// The week at place n has the days at places 7 n to 7 n + 6.
#[derive(Clone, Copy, Debug, PartialEq, Eq)]
pub struct Week {
    number: u32,
    ghost within: { number ≤ last_week },
}

// The weeks of the first `n` years from 1900 on: as many as there are Thursdays before.
#[tactic(auto, using(crate::specs::Counting::year_starts, crate::specs::WeekDates::week_start_is))]
fn week_start(n: u32) -> u32
    requires { n ≤ 300 }
    ensures { result ≡ week_start n }
{
    (year_start(n) + 3) / 7
}

impl Week {
    // That week of that year; 11 where the year has no such week or is none from 1900 to 2199.
    // Constant time.
    pub fn from_parts(year: u32, number: u32) -> Result<Week, Refusal>
        ensures { MatchResult result (λ s. week_at s.number ≡ week year number) (λ e. (number_of e ≡ 11) × ((n : ℕ) → n ≤ last_week → week_at n ≢ week year number)) }
    {
        if !matches!(year, FIRST_YEAR..=LAST_YEAR) || number < 1 {
            return Err(Refusal::NoStamp);
        }
        let before = week_start(year - FIRST_YEAR);
        if number > week_start(year - FIRST_YEAR + 1) - before {
            return Err(Refusal::NoStamp);
        }
        Ok(Week {
            number: before + (number - 1),
        })
    }

    // The year and the number of the week in it. Constant time.
    #[tactic(auto, using(crate::specs::WeekDates::week_start_is, crate::specs::WeekDates::read_off))]
    pub fn parts(self) -> (u32, u32)
        ensures { week_at self.number ≡ week result.0 result.1 }
    {
        let n = year_of(7 * self.number + 3);
        (FIRST_YEAR + n, self.number - week_start(n) + 1)
    }
}

// What the definition of the calendar comes to; the call does nothing. A week's place is the number
// of weeks of the years before and of the weeks before it, and stepping from week to week meets
// each such week at that place and nothing else; a week's year is that of its Thursday; the last
// week is 2199-W52.
pub fn weeks_stand()
    ensures counted { Counted }
    ensures stepped { Stepped }
    ensures one_place { OnePlace }
    ensures thursdays { Thursdays }
    ensures ended { Ended }
    ensures long_year { LongYear }
{}

impl Calendar for Week {
    ghost place = { λ s. s.number };

    ghost LAST_PLACE = { last_week };

    const LAST_PLACE: u32 = 15652;

    ghost MARK = { 3 };

    const MARK: u32 = 3;

    ghost bounded = { Prim.search rules };

    ghost limited = { Prim.search rules };

    fn place(self) -> u32 {
        self.number
    }

    // Written for each calendar: only this module can make a week.
    fn at_place(n: u32) -> Option<Week> {
        if n <= Self::LAST_PLACE {
            Some(Week { number: n })
        } else {
            None
        }
    }
}

impl Printable for Week {
    ghost WIDTH = { week_width };

    const WIDTH: usize = 8;

    ghost text = { λ n. week_text (week_at n) };

    ghost wide = { Prim.search rules };

    ghost narrow = { Prim.search rules };

    ghost whole = { Prim.search rules };

    ghost printed = { Prim.search rules };

    ghost one_place = { λ m n a b e. text_place m n a b e };

    fn text_byte(self, i: usize) -> Option<u8> {
        let (year, number) = self.parts();
        match i {
            0..=3 => digit(year, 4, i),
            4 => Some(b'-'),
            5 => Some(b'W'),
            _ => digit(number, 2, i - 6),
        }
    }

    fn read(bytes: &[u8]) -> Result<Week, Refusal> {
        if bytes.len() != Self::WIDTH || bytes[4] != b'-' || bytes[5] != b'W' {
            return Err(Refusal::NoStamp);
        }
        let year = number(&bytes[0..4]).ok_or(Refusal::NoStamp)?;
        let week = number(&bytes[6..8]).ok_or(Refusal::NoStamp)?;
        Week::from_parts(year, week)
    }
}
