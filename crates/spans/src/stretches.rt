// Runs of reference places, and what is left of a set without one.
ghost use Rattle.calendar.specs.Orders.{place_limit};
ghost use Rattle.std.specs.Prelude.{◌≡◌, ℕ, ◌+◌, ◌<◌, ◌≤◌, not, ◌&&◌, length};

use stamps::ReferenceSet;

// The places from `low` to `high`: none where the low is above the high.
#[derive(Clone, Copy)]
pub(crate) struct Stretch {
    pub(crate) low: u32,
    pub(crate) high: u32,
    ghost limited: { high ≤ place_limit },
}

impl Stretch {
    ghost use Rattle.spans.specs.Stretches.{covers};
    ghost use Rattle.stamps.specs.Sets.{has, listing};

    // The places of both stretches.
    pub(crate) fn shared(self, other: Stretch) -> Stretch
        ensures { (r : ℕ) → covers result r ≡ (covers self r && covers other r) }
    {
        Stretch {
            low: self.low.max(other.low),
            high: self.high.min(other.high),
        }
    }

    // The stretch as a set. No `From`, since its places are one clause of two.
    pub(crate) fn listed(self) -> ReferenceSet
        ensures places { (r : ℕ) → has result r ≡ covers self r }
        ensures few { length (listing result) ≤ 1 }
    {
        ReferenceSet::range(self.low, self.high)
    }

    // The places of the set that the stretch does not have. A stretch can part one range in two.
    pub(crate) fn cut_from(self, set: &ReferenceSet) -> ReferenceSet
        requires { length (listing set.now) < 16 }
        ensures places { (r : ℕ) → has result r ≡ (has set.now r && not (covers self r)) }
        ensures few { length (listing result) ≤ length (listing set.now) + 1 }
    {
        set.without(&self.listed()).unwrap()
    }
}
