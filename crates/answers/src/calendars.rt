// What a command about a calendar answers.
ghost use Rattle.answers.specs.Calendars.{AnsweredCalendar};

use crate::parted::Parted;
use crate::replies::Reply;
use crate::stops::Stop;
use language::CalendarCommand;

// The command's answer, on the calendar `C`. Constant time, but for the reading of a text.
pub fn answer_calendar<C: Parted>(command: CalendarCommand) -> Result<Reply<C>, Stop>
    ensures { AnsweredCalendar C.Calendar C.Printable.own C.Parted.own command.entry result }
{
    match command {
        CalendarCommand::Place(text) => {
            let stamp = C::read(text.as_bytes())?;
            Ok(Reply::Place(stamp.place()))
        }
        CalendarCommand::Stamp(n) => match C::at_place(n) {
            Some(stamp) => Ok(Reply::Stamp(stamp)),
            None => Ok(Reply::Absent),
        },
        CalendarCommand::Named(parts) => Ok(Reply::Stamp(C::named(parts)?)),
    }
}
