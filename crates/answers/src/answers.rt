// What each command answers on a calendar.
ghost use Rattle.answers.specs.Answers.{Answered};

use crate::calendars::answer_calendar;
use crate::parted::Parted;
use crate::points::answer_points;
use crate::replies::Reply;
use crate::stops::Stop;
use language::Command;

// The command's answer, on the calendar `C`. Choosing a calendar is the session's part, and is done
// here already. Constant time, but for the reading of texts.
pub fn answer<C: Parted>(command: Command) -> Result<Reply<C>, Stop>
    ensures { Answered C.Calendar C.Printable.own C.Parted.own command.entry result }
{
    match command {
        Command::Choose(_) => Ok(Reply::Done),
        Command::Calendar(command) => answer_calendar(command),
        Command::Points(command) => Ok(answer_points(command)?),
        Command::Help => Ok(Reply::Commands),
    }
}
