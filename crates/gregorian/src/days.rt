// Days of the Gregorian calendar, from 1900-01-01 to 2199-12-31.
ghost use Rattle.gregorian.specs.Dates.{date, date_at, date_text, date_width, last_day, Counted, Stepped, OnePlace, Ended, LeapDay};
ghost use Rattle.calendar.specs.Refusals.{number_of};
ghost use Rattle.std.specs.Prelude.{◌≡◌, ℕ, ◌<◌, ◌≤◌, MatchResult, ◌≢◌};
ghost use Rattle.std.proofs.Common.{rules};
ghost use Rattle.gregorian.specs.DateTexts.{text_place};

use crate::years::{FIRST_YEAR, LAST_YEAR, is_leap, month_of, month_start, year_of, year_start};
use calendar::decimal::{digit, number};
use calendar::{Calendar, Printable, Refusal};

// A day, by how many days lie between it and 1900-01-01: that is its place. 2000-02-29 has place
// 36,583. A day is a Monday just if 7 divides its place.
#[derive(Clone, Copy, Debug, PartialEq, Eq)]
pub struct Day {
    number: u32,
    ghost within: { number ≤ last_day },
}

impl Day {
    // The day of that date; 11 where no day from 1900 to 2199 has it. Constant time.
    pub fn from_parts(year: u32, month: u32, day: u32) -> Result<Day, Refusal>
        ensures { MatchResult result (λ s. date_at s.number ≡ date year month day) (λ e. (number_of e ≡ 11) × ((n : ℕ) → n ≤ last_day → date_at n ≢ date year month day)) }
    {
        if !matches!(year, FIRST_YEAR..=LAST_YEAR) || !matches!(month, 1..=12) || day < 1 {
            return Err(Refusal::NoStamp);
        }
        let leap = is_leap(year);
        let before = month_start(leap, month - 1);
        if day > month_start(leap, month) - before {
            return Err(Refusal::NoStamp);
        }
        Ok(Day {
            number: year_start(year - FIRST_YEAR) + before + (day - 1),
        })
    }

    // The year, the month and the day of the month. Constant time.
    #[tactic(auto, using(crate::specs::Counting::rest_below, crate::specs::DatesLemmas::read_off))]
    pub fn parts(self) -> (u32, u32, u32)
        ensures { date_at self.number ≡ date result.0 result.1 result.2 }
    {
        let n = year_of(self.number);
        let rest = self.number - year_start(n);
        let leap = is_leap(FIRST_YEAR + n);
        let k = month_of(leap, rest);
        (FIRST_YEAR + n, k + 1, rest - month_start(leap, k) + 1)
    }
}

// What the definition of the calendar comes to; the call does nothing. A date's place is the number
// of days of the years, the months and the days before it, and stepping from day to day meets each
// such date at that place and nothing else; the last day is 2199-12-31.
pub fn days_stand()
    ensures counted { Counted }
    ensures stepped { Stepped }
    ensures one_place { OnePlace }
    ensures ended { Ended }
    ensures leap_day { LeapDay }
{}

impl Calendar for Day {
    ghost place = { λ s. s.number };

    ghost LAST_PLACE = { last_day };

    const LAST_PLACE: u32 = 109572;

    ghost MARK = { 2 };

    const MARK: u32 = 2;

    ghost bounded = { Prim.search rules };

    ghost limited = { Prim.search rules };

    fn place(self) -> u32 {
        self.number
    }

    // Written for each calendar: only this module can make a day.
    fn at_place(n: u32) -> Option<Day> {
        if n <= Self::LAST_PLACE {
            Some(Day { number: n })
        } else {
            None
        }
    }
}

impl Printable for Day {
    ghost WIDTH = { date_width };

    const WIDTH: usize = 10;

    ghost text = { λ n. date_text (date_at n) };

    ghost wide = { Prim.search rules };

    ghost narrow = { Prim.search rules };

    ghost whole = { Prim.search rules };

    ghost printed = { Prim.search rules };

    ghost one_place = { λ m n a b e. text_place m n a b e };

    fn text_byte(self, i: usize) -> Option<u8> {
        let (year, month, day) = self.parts();
        match i {
            0..=3 => digit(year, 4, i),
            4 | 7 => Some(b'-'),
            5..=6 => digit(month, 2, i - 5),
            _ => digit(day, 2, i - 8),
        }
    }

    fn read(bytes: &[u8]) -> Result<Day, Refusal> {
        if bytes.len() != Self::WIDTH || bytes[4] != b'-' || bytes[7] != b'-' {
            return Err(Refusal::NoStamp);
        }
        let year = number(&bytes[0..4]).ok_or(Refusal::NoStamp)?;
        let month = number(&bytes[5..7]).ok_or(Refusal::NoStamp)?;
        let day = number(&bytes[8..10]).ok_or(Refusal::NoStamp)?;
        Day::from_parts(year, month, day)
    }
}
