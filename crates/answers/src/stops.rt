// Why a line gives no answer.
ghost use Rattle.answers.specs.Stops.{stop_text};
ghost use Rattle.answers.specs.declared.stops.Stop.TheVariants.{Refused, Unread};
ghost use Rattle.std.specs.Prelude.{◌≡◌, Some};

use calendar::Refusal;
use language::Misread;
use std::error::Error;
use std::fmt;

#[derive(Clone, Copy, Debug, PartialEq, Eq)]
pub enum Stop {
    Refused(Refusal),
    Unread(Misread),
}

// The two `From` are written out: what the kit's derive makes has no contract, and what `?` makes of
// an error is part of each answer's promise.
impl From<Refusal> for Stop {
    ghost from_gives = { λ e r. r ≡ Refused e };

    fn from(refusal: Refusal) -> Stop {
        Stop::Refused(refusal)
    }
}

impl From<Misread> for Stop {
    ghost from_gives = { λ e r. r ≡ Unread e };

    fn from(misread: Misread) -> Stop {
        Stop::Unread(misread)
    }
}

// As a transcript shows it.
impl fmt::Display for Stop {
    ghost output = { λ s. Some (stop_text s) };

    fn fmt<W: fmt::Write>(&self, f: &mut fmt::Formatter<W>) -> fmt::Result {
        match self {
            Stop::Refused(why) => write!(f, "refused {}: {why}", why.number()),
            Stop::Unread(why) => write!(f, "? {why}"),
        }
    }
}

impl Error for Stop {}
