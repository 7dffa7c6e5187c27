// What a span comes to at a reference place, and the lesser and greater of two.
ghost use Rattle.spans.specs.Spans.{bound, BeforeByEnds};
ghost use Rattle.calendar.specs.Refusals.{number_of};
ghost use Rattle.std.specs.Prelude.{◌≡◌, ℕ, ◌<◌, ◌≤◌, min, max, MatchResult};

use crate::spans::Span;
use calendar::Refusal;

impl Span {
    // The span from one place to another; 10 where that runs backward. Constant time, as all calls
    // here.
    pub fn new(early: u32, late: u32) -> Result<Span, Refusal>
        ensures { MatchResult result (λ s. (s.early ≡ early) × (s.late ≡ late)) (λ e. (number_of e ≡ 10) × (late < early)) }
    {
        if early > late {
            return Err(Refusal::PointBackward);
        }
        Ok(Span { early, late })
    }

    // The place that the span comes to at a reference place.
    #[tactic(auto, using(crate::proofs::Bounds::bound_is))]
    pub fn bind(self, place: u32) -> u32
        ensures { result ≡ bound self place }
    {
        self.early.max(place.min(self.late))
    }

    // The span that is, at each reference place, the lesser of the two. `greater` is the same by `max`:
    // one function for both would take the choice as an argument, and say its contract by it.
    #[tactic(auto, using(crate::proofs::Bounds::bound_is))]
    pub fn lesser(self, other: Span) -> Span
        ensures early { result.early ≡ min self.early other.early }
        ensures late { result.late ≡ min self.late other.late }
        ensures commutes { (r : ℕ) → bound result r ≡ min (bound self r) (bound other r) }
    {
        Span {
            early: self.early.min(other.early),
            late: self.late.min(other.late),
        }
    }

    // The span that is, at each reference place, the greater of the two.
    #[tactic(auto, using(crate::proofs::Bounds::bound_is))]
    pub fn greater(self, other: Span) -> Span
        ensures early { result.early ≡ max self.early other.early }
        ensures late { result.late ≡ max self.late other.late }
        ensures commutes { (r : ℕ) → bound result r ≡ max (bound self r) (bound other r) }
    {
        Span {
            early: self.early.max(other.early),
            late: self.late.max(other.late),
        }
    }
}

// Whether one span is before another can be told from their four places and the reference place; the
// call does nothing.
#[tactic(auto, using(crate::proofs::Bounds::before_by_ends))]
pub fn before_by_ends_stands()
    ensures { BeforeByEnds }
{}
