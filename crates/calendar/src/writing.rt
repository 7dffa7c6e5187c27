// How a calendar's stamps are written and read.
ghost use Rattle.calendar.specs.Refusals.{number_of};
ghost use Rattle.calendar.specs.Texts.{Printed};
ghost use Rattle.std.specs.Prelude.{◌≡◌, ℕ, ◌^◌, ◌<◌, ◌≤◌, List, length, MatchOption, MatchResult, ◌≢◌, Some, slice_index};

use crate::orders::Calendar;
use crate::refusals::Refusal;
use std::fmt;

// A calendar whose stamps have texts, all of one width, and each text one stamp. Contracts over one
// hand on two records, `C.Calendar` and `C.Printable.own`, since the record of both has no name that
// a definition could take.
pub trait Printable: Calendar {
    // How many bytes a text has.
    ghost WIDTH: { ℕ };

    const WIDTH: usize;

    // The text of the stamp at a place.
    ghost text: { ℕ → List ℕ };

    // The byte at `i` of the stamp's text: absent past its end. Constant time in our calendars.
    fn text_byte(self, i: usize) -> Option<u8>
        ensures { MatchOption result (WIDTH ≤ i) (λ b. (i < WIDTH) × (b ≡ slice_index (text (Self.Calendar.place self)) i)) };

    // The stamp that is written so; 11 where no stamp is. Constant time in our calendars: a text of
    // another width is refused at once. As a supertrait, `TryFrom` would need a law that ties what it
    // gives to `text`.
    fn read(bytes: &[u8]) -> Result<Self, Refusal>
        ensures { MatchResult result (λ s. text (Self.Calendar.place s) ≡ bytes.now) (λ e. (number_of e ≡ 11) × ((n : ℕ) → n ≤ Self.Calendar.LAST_PLACE → text n ≢ bytes.now)) };

    // A text has at least one byte, and not more than can be counted.
    ghost wide: { 1 ≤ WIDTH };

    ghost narrow: { WIDTH < 2 ^ 64 };

    // All texts have one width.
    ghost whole: { (n : ℕ) → n ≤ Self.Calendar.LAST_PLACE → length (text n) ≡ WIDTH };

    // They consist of digits, capitals, `-` and `/`.
    ghost printed: { (n : ℕ) → n ≤ Self.Calendar.LAST_PLACE → Printed (text n) };

    // No two places share one.
    ghost one_place: { (m n : ℕ) → m ≤ Self.Calendar.LAST_PLACE → n ≤ Self.Calendar.LAST_PLACE → text m ≡ text n → m ≡ n };
}

// A stamp, shown by its text. Takes a step for each byte.
#[derive(Clone, Copy, Debug)]
pub struct Text<C>(pub C);

impl<C: Printable> fmt::Display for Text<C> {
    ghost output = { λ t. Some (C.Printable.text (C.Calendar.place t.0)) };

    fn fmt<W: fmt::Write>(&self, f: &mut fmt::Formatter<W>) -> fmt::Result {
        // By value, so that what the bytes rest on is worked out once: each write could change what stands
        // behind a reference.
        let Text(stamp) = *self;
        // By position, since a text stands nowhere: a stamp gives each of its bytes when asked.
        for i in 0..C::WIDTH {
            let byte = stamp.text_byte(i).unwrap();
            f.write_str(char::from(byte).encode_utf8(&mut [0; 4]))?;
        }
        Ok(())
    }
}
