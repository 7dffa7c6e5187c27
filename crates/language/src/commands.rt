// The commands of a script, as a line's words spell them.
ghost use Rattle.language.specs.Commands.{CommandRead};
ghost use Rattle.language.specs.Words.{texts};

use crate::calendars::{CalendarCommand, Kind};
use crate::misreads::Misread;
use crate::points::PointCommand;

#[derive(Clone, Copy)]
pub enum Command<'a> {
    // Work with that calendar from now on.
    Choose(Kind),
    // Tell about the chosen calendar.
    Calendar(CalendarCommand<'a>),
    // Tell about points of the chosen calendar.
    Points(PointCommand<'a>),
    // The list of the commands.
    Help,
}

// The command that the words spell. Takes a step for each byte of the words.
impl<'a> TryFrom<&[&'a str]> for Command<'a> {
    type Error = Misread;

    ghost try_from_gives = { λ ws. CommandRead (texts ws.now) };

    fn try_from(words: &[&'a str]) -> Result<Command<'a>, Misread> {
        // The keywords stand here and where their commands are read: a pattern takes no list of words.
        match words {
            ["calendar", name] => Ok(Command::Choose(name.parse()?)),
            ["help"] => Ok(Command::Help),
            ["place" | "stamp" | "parts", ..] => {
                Ok(Command::Calendar(CalendarCommand::try_from(words)?))
            }
            // Only a command on points is left; where the words spell none, its reader says why, of any line.
            _ => Ok(Command::Points(PointCommand::try_from(words)?)),
        }
    }
}
