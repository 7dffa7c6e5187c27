// Running hours, counted from 0 to 999,999 and written in six digits, as 004217.
ghost use Rattle.calendar.specs.Hours.{last_hour, hour_width, hour_text};
ghost use Rattle.calendar.specs.Refusals.{number_of};
ghost use Rattle.std.specs.Prelude.{◌≡◌, ℕ, ◌<◌, ◌≤◌, MatchResult};
ghost use Rattle.std.proofs.Common.{rules};

use crate::decimal::{digit, number};
use crate::orders::Calendar;
use crate::refusals::Refusal;
use crate::writing::Printable;

// An hour of a pump or a mixer, by how many hours it has run before. Its place is that count.
#[derive(Clone, Copy, Debug, PartialEq, Eq)]
pub struct Hour {
    count: u32,
    ghost within: { count ≤ last_hour },
}

impl Hour {
    // The hour of that count; 11 past the last. Constant time.
    pub fn from_parts(count: u32) -> Result<Hour, Refusal>
        ensures { MatchResult result (λ s. s.count ≡ count) (λ e. (number_of e ≡ 11) × (last_hour < count)) }
    {
        if count > Self::LAST_PLACE {
            return Err(Refusal::NoStamp);
        }
        Ok(Hour { count })
    }

    // The count of the hour. Constant time.
    pub fn parts(self) -> u32
        ensures { result ≡ self.count }
    {
        self.place()
    }
}

impl Calendar for Hour {
    ghost place = { λ h. h.count };

    ghost LAST_PLACE = { last_hour };

    const LAST_PLACE: u32 = 999999;

    ghost MARK = { 1 };

    const MARK: u32 = 1;

    ghost bounded = { Prim.search rules };

    ghost limited = { Prim.search rules };

    fn place(self) -> u32 {
        self.count
    }

    fn at_place(n: u32) -> Option<Hour> {
        Hour::from_parts(n).ok()
    }
}

impl Printable for Hour {
    ghost WIDTH = { hour_width };

    const WIDTH: usize = 6;

    ghost text = { hour_text };

    ghost wide = { Prim.search rules };

    ghost narrow = { Prim.search rules };

    ghost whole = { Prim.search rules };

    ghost printed = { Prim.search rules };

    ghost one_place = { Prim.search rules };

    fn text_byte(self, i: usize) -> Option<u8> {
        digit(self.count, Self::WIDTH, i)
    }

    fn read(bytes: &[u8]) -> Result<Hour, Refusal> {
        if bytes.len() != Self::WIDTH {
            return Err(Refusal::NoStamp);
        }
        let count = number(bytes).ok_or(Refusal::NoStamp)?;
        Hour::from_parts(count)
    }
}
