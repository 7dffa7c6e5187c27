// What a session understands: all commands, or those on calendars alone.
ghost use Rattle.language.specs.Languages.{calendar_keyword, ReadIn, HasAllButPoints};
ghost use Rattle.language.specs.Words.{texts};
ghost use Rattle.std.specs.Prelude.{◌≡◌, ℕ, Bool, true, List};

use crate::commands::Command;
use crate::misreads::Misread;

// A language has the commands that begin with its keywords.
pub trait Language {
    ghost has_keyword: { List ℕ → Bool };

    // A line for each command, which `help` shows. Each language writes its own, since its columns are as
    // wide as its commands.
    const HELP: &'static str;

    // Whether the word is a keyword of the language.
    fn has_keyword(word: &str) -> bool
        ensures { result ≡ has_keyword word.now };

    // The command of the language that the words spell. Takes a step for each byte of the words.
    final fn read<'a>(words: &[&'a str]) -> Result<Command<'a>, Misread>
        ensures { ReadIn has_keyword (texts words.now) result }
    {
        match words {
            [keyword, ..] if Self::has_keyword(keyword) => Command::try_from(words),
            _ => Err(Misread::UnknownCommand),
        }
    }
}

// Commands on calendars alone.
pub struct Calendars;

impl Language for Calendars {
    ghost has_keyword = { calendar_keyword };

    const HELP: &'static str = "calendar hours|days|weeks   choose a calendar and start anew
place STAMP                 the place of a stamp
stamp PLACE                 the stamp at a place
parts COUNT                 the hour of that count
parts YEAR MONTH DAY        the day of that date
parts YEAR WEEK             that week of that year
help                        this list
";

    fn has_keyword(word: &str) -> bool {
        matches!(word, "calendar" | "place" | "stamp" | "parts" | "help")
    }
}

// Commands on calendars and on points.
pub struct Points;

impl Language for Points {
    ghost has_keyword = { λ _. true };

    const HELP: &'static str = "calendar hours|days|weeks           choose a calendar and start anew
place STAMP                         the place of a stamp
stamp PLACE                         the stamp at a place
parts COUNT                         the hour of that count
parts YEAR MONTH DAY                the day of that date
parts YEAR WEEK                     that week of that year
point P                             the point, in its shortest form
bind P STAMP                        the point at a reference stamp
lesser P Q                          the lesser of two points
greater P Q                         the greater of two points
compare before|equal|at-most P Q    where the comparison holds
relation before|meets|overlaps|during|equals S E P Q
                                    where S to E has the relation to P to Q
holds S E P                         where S to E holds P
help                                this list
points are now, S, S+, +S or S+T
";

    fn has_keyword(_word: &str) -> bool {
        true
    }
}

// The language of calendars has all commands but those on points; the call does nothing.
pub fn calendars_stand()
    ensures { HasAllButPoints ⟦<Calendars as Language>⟧.has_keyword }
{}
