// How far a calendar goes, and where one span is at most another as they stand in it.
ghost use Rattle.spans.specs.Spans.{bound_in};
ghost use Rattle.spans.specs.Stretches.{covers};
ghost use Rattle.calendar.specs.Orders.{place_limit};
ghost use Rattle.std.specs.Prelude.{◌≡◌, ℕ, ◌≤◌, ◌&&◌, nat_eq, nat_le};

use crate::spans::Span;
use crate::stretches::Stretch;
use calendar::Calendar;

// The last place of a calendar: reference places go from 0 to it.
#[derive(Clone, Copy)]
pub struct Extent {
    pub last: u32,
    ghost limited: { last ≤ place_limit },
}

impl Extent {
    // That of the calendar `C`. Constant time.
    pub fn of<C: Calendar>() -> Extent
        ensures { result.last ≡ C.Calendar.LAST_PLACE }
    {
        Extent {
            last: C::LAST_PLACE,
        }
    }

    // Every place.
    pub(crate) fn whole(self) -> Stretch
        ensures { (r : ℕ) → covers result r ≡ nat_le r self.last }
    {
        Stretch {
            low: 0,
            high: self.last,
        }
    }

    // Where one span is at most another. With growing reference place the two meet or part at most
    // twice: where p starts later it has to wait for q, and where it ends later q stays behind.
    pub(crate) fn within(self, p: Span, q: Span) -> Stretch
        ensures { (r : ℕ) → covers result r ≡ (nat_le r self.last && nat_le (bound_in self.last p r) (bound_in self.last q r)) }
    {
        let Extent { last } = self;
        let (from, to) = (p.early.min(last), p.late.min(last));
        let (start, end) = (q.early.min(last), q.late.min(last));
        let low = if start < from { from } else { 0 };
        let high = if end < to { end } else { last };
        Stretch { low, high }
    }

    // Where two spans come to one place.
    pub(crate) fn same(self, p: Span, q: Span) -> Stretch
        ensures { (r : ℕ) → covers result r ≡ (nat_le r self.last && nat_eq (bound_in self.last p r) (bound_in self.last q r)) }
    {
        self.within(p, q).shared(self.within(q, p))
    }
}
