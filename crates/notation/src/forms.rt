// The ways to write a point: how one is read, and which one a point is printed in.
ghost use Rattle.notation.specs.Forms.{spelled, opens, closes, Chosen, Shortest, Stands, Backward, FormRead, PointRead};
ghost use Rattle.notation.specs.Marks.{plus, Lacks};
ghost use Rattle.calendar.specs.Refusals.{number_of};
ghost use Rattle.ongoing.specs.Points.{starts, stops};
ghost use Rattle.std.specs.Prelude.{◌≡◌, ◌<◌, ◌≤◌, min, ◌∷◌, ◌++◌, MatchResult, Some};

use crate::marks::first_sign;
use calendar::{Calendar, Printable, Refusal, Text};
use ongoing::Point;
use std::fmt;

// The ways to write a point.
#[derive(Clone, Copy)]
pub enum Form<C> {
    // `now`: it moves with the reference stamp.
    Now,
    // `S`: it always is S.
    Fixed(C),
    // `S+`: it is S first, and then moves.
    Since(C),
    // `+S`: it moves, and then stays at S.
    Until(C),
    // `S+T`: it is S first, then moves, and then stays at T.
    Between(C, C),
}

impl<C: Printable> Form<C> {
    // The form with a sign, by the bytes before it and those after it.
    fn around(before: &[u8], after: &[u8]) -> Result<Form<C>, Refusal>
        requires { Lacks plus before.now }
        ensures { FormRead C.Calendar C.Printable.own (before.now ++ (plus ∷ after.now)) result }
    {
        match (before.is_empty(), after.is_empty()) {
            (true, _) => Ok(Form::Until(C::read(after)?)),
            (false, true) => Ok(Form::Since(C::read(before)?)),
            (false, false) => Ok(Form::Between(C::read(before)?, C::read(after)?)),
        }
    }

    // The point that it stands for; 10 where its first stamp is after its second. Constant time.
    pub fn point(self) -> Result<Point<C>, Refusal>
        ensures { MatchResult result (λ p. Stands C.Calendar self p) (λ e. (number_of e ≡ 10) × Backward C.Calendar self) }
    {
        match self {
            Form::Now => Ok(Point::now()),
            Form::Fixed(stamp) => Ok(Point::fixed(stamp)),
            Form::Since(first) => Point::new(first, C::last()),
            Form::Until(second) => Point::new(C::first(), second),
            Form::Between(first, second) => Point::new(first, second),
        }
    }

    // The form in which the point is printed. No form of the same point is shorter, unless texts have one
    // byte, or the calendar has one stamp, which `now` then is too. Constant time.
    pub fn shortest(point: Point<C>) -> Form<C>
        ensures chosen { Chosen C.Calendar (min (starts point) C.Calendar.LAST_PLACE) (min (stops point) C.Calendar.LAST_PLACE) result }
        ensures back { (opens C.Calendar result ≡ min (starts point) C.Calendar.LAST_PLACE) × (closes C.Calendar result ≡ min (stops point) C.Calendar.LAST_PLACE) }
        ensures short { 2 ≤ C.Printable.WIDTH → 0 < C.Calendar.LAST_PLACE → Shortest C.Calendar C.Printable.own result }
    {
        let (first, second) = (point.first(), point.second());
        let (from, to) = (first.place(), second.place());
        if from == to {
            return Form::Fixed(first);
        }
        match (from == 0, to == C::LAST_PLACE) {
            (true, true) => Form::Now,
            (false, true) => Form::Since(first),
            (true, false) => Form::Until(second),
            (false, false) => Form::Between(first, second),
        }
    }
}

// The form that a word spells; 11 where it spells none. Takes a step for each byte of the word.
impl<C: Printable> TryFrom<&[u8]> for Form<C> {
    type Error = Refusal;

    ghost try_from_gives = { λ word r. FormRead C.Calendar C.Printable.own word.now r };

    fn try_from(word: &[u8]) -> Result<Form<C>, Refusal> {
        let now: &[u8] = b"now";
        if word == now {
            return Ok(Form::Now);
        }
        match first_sign(word)? {
            Some(at) => Self::around(&word[..at], &word[at + 1..]),
            None => Ok(Form::Fixed(C::read(word)?)),
        }
    }
}

// A form, shown as it is read. Takes a step for each byte.
impl<C: Printable> fmt::Display for Form<C> {
    ghost output = { λ f. Some (spelled C.Calendar C.Printable.own f) };

    fn fmt<W: fmt::Write>(&self, f: &mut fmt::Formatter<W>) -> fmt::Result {
        match self {
            Form::Now => write!(f, "now"),
            Form::Fixed(stamp) => write!(f, "{}", Text(*stamp)),
            Form::Since(first) => write!(f, "{}+", Text(*first)),
            Form::Until(second) => write!(f, "+{}", Text(*second)),
            Form::Between(first, second) => write!(f, "{}+{}", Text(*first), Text(*second)),
        }
    }
}

// The point that the word writes; 11 where it spells no form, and else 10 where that runs backward.
// Takes a step for each byte of the word.
pub fn read_point<C: Printable>(word: &[u8]) -> Result<Point<C>, Refusal>
    ensures { PointRead C.Calendar C.Printable.own word.now result }
{
    Form::<C>::try_from(word)?.point()
}
