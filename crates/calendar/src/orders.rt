// A calendar as a bounded order of stamps: all that sets, points and layers need of one.
ghost use Rattle.calendar.specs.Orders.{place_limit};
ghost use Rattle.std.specs.Ordering.{MatchOrdering};
ghost use Rattle.std.specs.Prelude.{◌≡◌, ℕ, ◌<◌, ◌≤◌, min, MatchOption};

use std::cmp::Ordering;

// No calendar's last place is past this one.
pub const PLACE_LIMIT: u32 = 16777215;

// A stamp means its place: a whole number from 0 to the last, and each of these is the place of a
// stamp. Two values with one place are the same stamp. A type that can hold more than its
// calendar has counts the surplus as the last stamp, which is what the law `bounded` asks.
//
// A calendar gives its constants, `place` and `at_place`; the rest follows from them, once for all.
// In our own calendars every call takes constant time.
pub trait Calendar: Copy {
    // The place of a stamp.
    ghost place: { Self → ℕ };

    // The last place.
    ghost LAST_PLACE: { ℕ };

    const LAST_PLACE: u32;

    // The number that marks the calendar's images: a number, since images store it.
    ghost MARK: { ℕ };

    const MARK: u32;

    fn place(self) -> u32
        ensures { result ≡ place self };

    // The stamp at a place, or none where the calendar ends before it. Each calendar writes its own,
    // since only its own module can make a stamp of it.
    fn at_place(n: u32) -> Option<Self>
        ensures { MatchOption result (LAST_PLACE < n) (λ s. (n ≤ LAST_PLACE) × (place s ≡ n)) };

    // The stamp at a place, where all places past the last count as the last.
    fn at_or_last(n: u32) -> Self
        ensures { place result ≡ min n LAST_PLACE }
    {
        Self::at_place(n.min(Self::LAST_PLACE)).unwrap()
    }

    // The stamp at place 0: every calendar has one.
    fn first() -> Self
        ensures { place result ≡ 0 }
    {
        Self::at_place(0).unwrap()
    }

    // The stamp at the last place.
    fn last() -> Self
        ensures { place result ≡ LAST_PLACE }
    {
        Self::at_place(Self::LAST_PLACE).unwrap()
    }

    // Which of two stamps comes first, or that they are the same. A method, and no bound on `Ord`:
    // two values with one place are the same stamp, whatever an order of their fields would say.
    fn order(self, other: Self) -> Ordering
        ensures { MatchOrdering result (place self < place other) (place self ≡ place other) (place other < place self) }
    {
        self.place().cmp(&other.place())
    }

    // No stamp lies past the last place.
    ghost bounded: { (s : Self) → place s ≤ LAST_PLACE };

    // No calendar is longer than this.
    ghost limited: { LAST_PLACE ≤ place_limit };
}
