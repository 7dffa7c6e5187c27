// What the bytes of a point's text are.
ghost use Rattle.notation.specs.Marks.{mark_of, plus, Lacks, Strays};
ghost use Rattle.calendar.specs.Refusals.{number_of};
ghost use Rattle.std.specs.Prelude.{◌≡◌, ◌<◌, length, take, MatchOption, MatchResult, slice_index};

use calendar::Refusal;

// What a byte is to a point's text. The texts of stamps are digits, letters and separators, so a sign
// never belongs to a stamp.
#[derive(Clone, Copy)]
pub enum Mark {
    // `+`
    Sign,
    // `0` to `9`
    Digit,
    // A capital, `A` to `Z`.
    Letter,
    // `-` or `/`
    Separator,
    // Any other byte. The word `now`, which is not made of stamps, has only such bytes.
    Stray,
}

// What the byte is. Constant time.
impl From<u8> for Mark {
    ghost from_gives = { λ byte mark. mark ≡ mark_of byte };

    fn from(byte: u8) -> Mark {
        match byte as char {
            '+' => Mark::Sign,
            '0'..='9' => Mark::Digit,
            'A'..='Z' => Mark::Letter,
            '-' | '/' => Mark::Separator,
            _ => Mark::Stray,
        }
    }
}

// Where the first sign of the word stands, if it has one; 11 where a byte before it is stray, since no
// stamp has such a byte. Takes a step for each byte up to there. A loop, since `position` would stop at
// either byte and not say at which.
pub(crate) fn first_sign(word: &[u8]) -> Result<Option<usize>, Refusal>
    ensures { MatchResult result (λ o. MatchOption o (Lacks plus word.now) (λ i. (i < length word.now) × (slice_index word.now i ≡ plus) × Lacks plus (take i word.now))) (λ e. (number_of e ≡ 11) × Strays word.now) }
{
    for (i, byte) in word.iter().enumerate() {
        match Mark::from(*byte) {
            Mark::Sign => return Ok(Some(i)),
            Mark::Digit | Mark::Letter | Mark::Separator => {}
            Mark::Stray => return Err(Refusal::NoStamp),
        }
    }
    Ok(None)
}
