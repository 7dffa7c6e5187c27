// Points that move with "now".
ghost use Rattle.ongoing.specs.Points.{place_at, starts, stops};
ghost use Rattle.ongoing.specs.declared.points.Point.{Point};
ghost use Rattle.spans.specs.Stretches.{Where};
ghost use Rattle.calendar.specs.Refusals.{number_of};
ghost use Rattle.stamps.specs.Sets.{listing};
ghost use Rattle.std.specs.Prelude.{◌≡◌, ◌↔◌, ℕ, ◌<◌, ◌≤◌, min, max, length, MatchResult, nat_eq, nat_le, nat_lt};

use calendar::{Calendar, Refusal};
use spans::{Extent, Span};
use stamps::ReferenceSet;
use std::marker::PhantomData;

// Two stamps of one calendar, the first not after the second: as the reference stamp goes on, the
// point stands at the first, then moves with the reference stamp, then stands at the second. No other
// point can exist, and a point of one calendar cannot stand where one of another is meant.
//
// It is kept by places, and what these can hold past the calendar's last place counts as the last
// stamp. All calls take constant time, and none but `new` is refused.
#[derive_where(Clone, Copy)]
pub struct Point<C> {
    pub(crate) span: Span,
    pub(crate) calendar: PhantomData<C>,
}

impl<C: Calendar> Point<C> {
    // The point from one stamp to another; 10 where the first is after the second.
    pub fn new(first: C, second: C) -> Result<Point<C>, Refusal>
        ensures { MatchResult result (λ p. (starts p ≡ C.Calendar.place first) × (stops p ≡ C.Calendar.place second)) (λ e. (number_of e ≡ 10) × (C.Calendar.place second < C.Calendar.place first)) }
    {
        let span = Span::new(first.place(), second.place())?;
        Ok(Point {
            span,
            calendar: PhantomData,
        })
    }

    // The point that always is the stamp.
    pub fn fixed(stamp: C) -> Point<C>
        ensures starts { starts result ≡ C.Calendar.place stamp }
        ensures stops { stops result ≡ C.Calendar.place stamp }
    {
        let place = stamp.place();
        Point {
            span: Span {
                early: place,
                late: place,
            },
            calendar: PhantomData,
        }
    }

    // The point that always is the reference stamp.
    #[tactic(auto, using(spans::proofs::Bounds::bound_in_is))]
    pub fn now() -> Point<C>
        ensures starts { starts result ≡ 0 }
        ensures stops { stops result ≡ C.Calendar.LAST_PLACE }
        ensures moves { (r : ℕ) → r ≤ C.Calendar.LAST_PLACE → place_at C.Calendar.LAST_PLACE result r ≡ r }
    {
        Point {
            span: Span {
                early: 0,
                late: C::LAST_PLACE,
            },
            calendar: PhantomData,
        }
    }

    // The first of its two stamps.
    pub fn first(self) -> C
        ensures { C.Calendar.place result ≡ min (starts self) C.Calendar.LAST_PLACE }
    {
        C::at_or_last(self.span.early)
    }

    // The second of its two stamps.
    pub fn second(self) -> C
        ensures { C.Calendar.place result ≡ min (stops self) C.Calendar.LAST_PLACE }
    {
        C::at_or_last(self.span.late)
    }

    // What the point is at a reference stamp.
    #[tactic(auto, unfolding(spans::specs::Spans::bound_in))]
    pub fn bind(self, reference: C) -> C
        ensures { C.Calendar.place result ≡ place_at C.Calendar.LAST_PLACE self (C.Calendar.place reference) }
    {
        C::at_or_last(self.span.bind(reference.place()))
    }

    // The point that is, at each reference stamp, the lesser of the two. `greater` stays apart, as for
    // spans: one method would take the choice as an argument, and say its contract by it.
    #[tactic(auto, unfolding(spans::specs::Spans::bound_in))]
    pub fn lesser(self, other: Point<C>) -> Point<C>
        ensures starts { starts result ≡ min (starts self) (starts other) }
        ensures stops { stops result ≡ min (stops self) (stops other) }
        ensures commutes { (r : ℕ) → place_at C.Calendar.LAST_PLACE result r ≡ min (place_at C.Calendar.LAST_PLACE self r) (place_at C.Calendar.LAST_PLACE other r) }
    {
        Point {
            span: self.span.lesser(other.span),
            calendar: PhantomData,
        }
    }

    // The point that is, at each reference stamp, the greater of the two.
    #[tactic(auto, unfolding(spans::specs::Spans::bound_in))]
    pub fn greater(self, other: Point<C>) -> Point<C>
        ensures starts { starts result ≡ max (starts self) (starts other) }
        ensures stops { stops result ≡ max (stops self) (stops other) }
        ensures commutes { (r : ℕ) → place_at C.Calendar.LAST_PLACE result r ≡ max (place_at C.Calendar.LAST_PLACE self r) (place_at C.Calendar.LAST_PLACE other r) }
    {
        Point {
            span: self.span.greater(other.span),
            calendar: PhantomData,
        }
    }

    // The reference stamps at which this point is before the other. Each comparison is a call of its
    // own, since its contract names it.
    pub fn before(self, other: Point<C>) -> ReferenceSet
        ensures places { Where C.Calendar.LAST_PLACE result (λ r. nat_lt (place_at C.Calendar.LAST_PLACE self r) (place_at C.Calendar.LAST_PLACE other r)) }
        ensures few { length (listing result) ≤ 2 }
    {
        Extent::of::<C>().before(self.span, other.span)
    }

    // The reference stamps at which the two are the same stamp.
    pub fn equal(self, other: Point<C>) -> ReferenceSet
        ensures places { Where C.Calendar.LAST_PLACE result (λ r. nat_eq (place_at C.Calendar.LAST_PLACE self r) (place_at C.Calendar.LAST_PLACE other r)) }
        ensures few { length (listing result) ≤ 1 }
    {
        Extent::of::<C>().equal(self.span, other.span)
    }

    // The reference stamps at which this point is not after the other.
    pub fn at_most(self, other: Point<C>) -> ReferenceSet
        ensures places { Where C.Calendar.LAST_PLACE result (λ r. nat_le (place_at C.Calendar.LAST_PLACE self r) (place_at C.Calendar.LAST_PLACE other r)) }
        ensures few { length (listing result) ≤ 1 }
    {
        Extent::of::<C>().at_most(self.span, other.span)
    }
}

// A clone of a point is the point itself, and making one cannot fail; the call does nothing.
pub fn point_clone_stands<C>()
    ensures itself { (p q : Point C) → ⟦<Point<C> as Clone>⟧.is_clone p q ↔ (q ≡ p) }
    ensures sure { (p : Point C) → ⟦<Point<C> as Clone>⟧.is_infallible p }
{}
