// A session: the chosen calendar, and the reply to each line of a script.
ghost use Rattle.script.specs.Sessions.{PassedOver, Replied, RepliedOn, Turn, chosen_after};
ghost use Rattle.texts.specs.Texts.{ShownMisread};
ghost use Rattle.std.specs.Prelude.{◌≡◌, IfOk, None, string_bytes, Decides};

use answers::{Stop, answer};
use calendar::{Hour, Printable};
use gregorian::{Day, Week};
use language::memory::Made;
use language::words::{first_word, words};
use language::{Command, Kind, Language, Misread};
use std::alloc::Global;
use std::marker::PhantomData;
use texts::shown;

// A session in the language `L`.
#[derive(Drop)]
pub struct Session<L> {
    chosen: Option<Kind>,
    language: PhantomData<L>,
}

// The text of what the command answers on the calendar of that kind.
fn replied<L: Language>(heap: Global, kind: Kind, command: Command) -> Made<String>
    ensures { IfOk result (λ t. RepliedOn kind command.entry (string_bytes t)) }
{
    match kind {
        Kind::Hours => shown::<Hour, L>(heap, answer(command)),
        Kind::Days => shown::<Day, L>(heap, answer(command)),
        Kind::Weeks => shown::<Week, L>(heap, answer(command)),
    }
}

// The text of what was not understood.
fn unread(heap: Global, misread: Misread) -> Made<String>
    ensures { IfOk result (λ t. ShownMisread (string_bytes t)) }
{
    let stop = Stop::Unread(misread);
    format!(in heap; "{stop}")
}

impl<L: Language> Session<L> {
    // No calendar is chosen yet.
    pub fn new() -> Session<L>
        ensures { result.chosen ≡ None }
    {
        Session {
            chosen: None,
            language: PhantomData,
        }
    }

    // The reply to a command line: one line of text or more, with no newline at its end. Takes a
    // step for each byte of the line and of the reply.
    pub fn reply(&mut self, heap: Global, line: &str) -> Made<String>
        ensures { IfOk result (λ t. Turn L.Language.has_keyword self.old.chosen line.now self.new.chosen (string_bytes t)) }
    {
        let words = words(heap, line)?;
        match L::read(words.as_slice()) {
            Err(misread) => unread(heap, misread),
            Ok(command) => self.perform(heap, command),
        }
    }

    fn perform(&mut self, heap: Global, command: Command) -> Made<String>
        ensures chosen { self.new.chosen ≡ chosen_after self.old.chosen command.entry }
        ensures replied { IfOk result (λ t. Replied self.new.chosen command.entry (string_bytes t)) }
    {
        if let Command::Choose(kind) = command {
            self.chosen = Some(kind);
        }
        match self.chosen {
            Some(kind) => replied::<L>(heap, kind, command),
            None => unread(heap, Misread::CalendarFirst),
        }
    }
}

// Whether a line of a script gives no command: it is blank, or begins with `#`. Takes a step for
// each byte up to the end of the first word.
pub fn is_passed_over(line: &str) -> bool
    ensures { Decides result (PassedOver line.now) }
{
    let (word, _) = first_word(line);
    word.is_empty() || line.starts_with('#')
}
