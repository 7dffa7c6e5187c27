// Intervals between points that move.
ghost use Rattle.ongoing.specs.Intervals.{Relates, Holds};
ghost use Rattle.ongoing.specs.declared.intervals.Interval.{Interval};
ghost use Rattle.stamps.specs.Sets.{listing};
ghost use Rattle.std.specs.Prelude.{◌≡◌, ◌↔◌, ◌≤◌, length};

use crate::points::Point;
use calendar::Calendar;
use spans::{Extent, Period, Relation};
use stamps::ReferenceSet;

// The stamps from the start on and before the end: none where the start is not before the end. A
// contract that ends at "now" does not cover the reference stamp itself.
#[derive_where(Clone, Copy)]
pub struct Interval<C> {
    pub start: Point<C>,
    pub end: Point<C>,
}

impl<C> Interval<C> {
    // By places. No `From`, which would let everybody see them.
    fn period(self) -> Period
        ensures start { result.start ≡ self.start.span }
        ensures end { result.end ≡ self.end.span }
    {
        Period {
            start: self.start.span,
            end: self.end.span,
        }
    }
}

impl<C: Calendar> Interval<C> {
    // The reference stamps at which this interval has the relation to the other. Constant time; never
    // refused, since no relation takes more than five ranges.
    pub fn related(self, relation: Relation, other: Interval<C>) -> ReferenceSet
        ensures places { Relates C.Calendar.LAST_PLACE relation self other result }
        ensures few { length (listing result) ≤ 5 }
    {
        Extent::of::<C>().related(relation, self.period(), other.period())
    }

    // The reference stamps at which the point lies in the interval. Constant time; never refused.
    pub fn holds(self, point: Point<C>) -> ReferenceSet
        ensures places { Holds C.Calendar.LAST_PLACE self point result }
        ensures few { length (listing result) ≤ 2 }
    {
        Extent::of::<C>().holds(self.period(), point.span)
    }
}

// A clone of an interval is the interval itself, and making one cannot fail; the call does nothing.
pub fn interval_clone_stands<C>()
    ensures itself { (i j : Interval C) → ⟦<Interval<C> as Clone>⟧.is_clone i j ↔ (j ≡ i) }
    ensures sure { (i : Interval C) → ⟦<Interval<C> as Clone>⟧.is_infallible i }
{}
