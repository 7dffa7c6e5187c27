// Answers as the text that a transcript shows.
ghost use Rattle.texts.specs.Texts.{Shown, Told};
ghost use Rattle.std.specs.Prelude.{IfOk, string_bytes};

use crate::sets::SetText;
use answers::{Reply, Stop};
use calendar::{Printable, Text};
use language::Language;
use language::memory::Made;
use notation::Form;
use std::alloc::Global;
use std::marker::PhantomData;

fn told<C: Printable, L: Language>(heap: Global, reply: Reply<C>) -> Made<String>
    ensures { IfOk result (λ t. Told C.Calendar C.Printable.own reply (string_bytes t)) }
{
    match reply {
        Reply::Done => String::from_str(heap, "ok"),
        Reply::Place(place) => format!(in heap; "ok {place}"),
        Reply::Stamp(stamp) => format!(in heap; "ok {}", Text(stamp)),
        Reply::Absent => String::from_str(heap, "ok absent"),
        Reply::Point(point) => format!(in heap; "ok {}", Form::shortest(point)),
        Reply::Set(set) => {
            let set = SetText {
                set: &set,
                calendar: PhantomData::<C>,
            };
            format!(in heap; "ok {set}")
        }
        Reply::Commands => format!(in heap; "{}ok", L::HELP),
    }
}

// What a transcript shows of an answer, in a session of the language `L`. Takes a step for each byte
// that it shows.
pub fn shown<C: Printable, L: Language>(
    heap: Global,
    answer: Result<Reply<C>, Stop>,
) -> Made<String>
    ensures { IfOk result (λ t. Shown C.Calendar C.Printable.own answer (string_bytes t)) }
{
    match answer {
        Ok(reply) => told::<C, L>(heap, reply),
        Err(stop) => format!(in heap; "{stop}"),
    }
}
