// Sets of places, what they have, and how they are put together.
ghost use Rattle.stamps.specs.Ranges.{Listing, OneListing, most_ranges, range};
ghost use Rattle.stamps.specs.Sets.{listing, has, same_kept, SamePlaces, Exactly};
ghost use Rattle.calendar.specs.Orders.{place_limit};
ghost use Rattle.std.specs.Prelude.{◌≡◌, ℕ, ◌<◌, ◌≤◌, min, false, not, ◌&&◌, ◌||◌, length, Decides, MatchOption, nat_le, slice_index_or};
ghost use Rattle.std.specs.Cmp.Rules.{comparing};
ghost use Rattle.std.proofs.Common.{rules};

use crate::ranges::Ranges;
use crate::sets::{EDGES, Range, ReferenceSet};
use crate::sweep::combine;
use calendar::Refusal;
use calendar::orders::PLACE_LIMIT;

impl ReferenceSet {
    // No place. Constant time.
    pub fn empty() -> ReferenceSet
        ensures { (p : ℕ) → has result p ≡ false }
    {
        ReferenceSet {
            used: 0,
            edges: [0; EDGES],
        }
    }

    // The places from `low` to `high`, which no calendar takes past the limit of places. Constant
    // time.
    pub fn range(low: u32, high: u32) -> ReferenceSet
        ensures { (p : ℕ) → has result p ≡ (nat_le low p && nat_le p (min high place_limit)) }
    {
        let high = high.min(PLACE_LIMIT);
        if low > high {
            return ReferenceSet::empty();
        }
        let mut edges = [0; EDGES];
        edges[0] = low;
        edges[1] = high + 1;
        ReferenceSet { used: 2, edges }
    }

    // The places up to `last`. Constant time.
    pub fn full(last: u32) -> ReferenceSet
        ensures { (p : ℕ) → has result p ≡ nat_le p (min last place_limit) }
    {
        ReferenceSet::range(0, last)
    }

    // How many ranges the set has. Constant time.
    pub fn count(&self) -> usize
        ensures count { result ≡ length (listing self.now) }
        ensures most { result ≤ most_ranges }
        ensures listed { Listing (listing self.now) }
    {
        self.used / 2
    }

    // The range at `i`, in rising order: absent past the last. Constant time, so it does not go by
    // `ranges`.
    pub fn range_at(&self, i: usize) -> Option<Range>
        ensures { MatchOption result (length (listing self.now) ≤ i) (λ x. (i < length (listing self.now)) × (x ≡ slice_index_or (listing self.now) i (range 0 0))) }
    {
        if i >= self.count() {
            return None;
        }
        let low = self.edges[2 * i];
        let past = self.edges[2 * i + 1];
        Some(Range {
            low,
            high: past - 1,
        })
    }

    // The ranges in rising order, one by one. Constant time, and so is each.
    pub fn ranges(&self) -> Ranges<'_>
        ensures left { result ≡ listing self.now }
        ensures most { length result ≤ most_ranges }
        ensures listed { Listing result }
    {
        Ranges {
            edges: &self.edges[..self.used],
        }
    }

    // Whether the set has the place, which is so just if an odd number of its edges stand at it or
    // below. Logarithmic in the edges.
    pub fn contains(&self, place: u32) -> bool
        ensures { result ≡ has self.now place }
    {
        self.edges[..self.used].partition_point(|edge| *edge <= place) % 2 == 1
    }

    // The places of both sets; 16 where these take too many ranges. Takes a step for each edge.
    pub fn and(&self, other: &ReferenceSet) -> Result<ReferenceSet, Refusal>
        ensures { Exactly result (λ p. has self.now p && has other.now p) }
    {
        combine(|x, y| x && y, self, other)
    }

    // The places of either set; 16 where these take too many ranges. Takes a step for each edge.
    pub fn or(&self, other: &ReferenceSet) -> Result<ReferenceSet, Refusal>
        ensures { Exactly result (λ p. has self.now p || has other.now p) }
    {
        combine(|x, y| x || y, self, other)
    }

    // The places of this set that the other does not have; 16 where these take too many ranges. Takes
    // a step for each edge.
    pub fn without(&self, other: &ReferenceSet) -> Result<ReferenceSet, Refusal>
        ensures { Exactly result (λ p. has self.now p && not (has other.now p)) }
    {
        combine(|x, y| x && !y, self, other)
    }

    // The places up to `last` that this set does not have; 16 where these take too many ranges. Takes
    // a step for each edge.
    pub fn not(&self, last: u32) -> Result<ReferenceSet, Refusal>
        ensures { Exactly result (λ p. nat_le p (min last place_limit) && not (has self.now p)) }
    {
        ReferenceSet::full(last).without(self)
    }
}

// Two sets are equal just if they have the same places. Written out, since a derived `==` tells its caller
// only that it compares what is kept.
impl PartialEq for ReferenceSet {
    ghost eq = { same_kept };

    ghost laws = { Prim.search (comparing, rules) };

    fn eq(&self, other: &ReferenceSet) -> bool
        ensures kept { result ≡ same_kept self.now other.now }
        ensures places { Decides result ((p : ℕ) → has self.now p ≡ has other.now p) }
    {
        self.used == other.used && self.edges == other.edges
    }
}

// Two listings with the same places are the same listing; the call does nothing.
pub fn one_listing_stands()
    ensures { OneListing }
{}

// What `==` computes, also through a bound or as `!=`: whether two sets have the same places. The
// call does nothing.
pub fn equality_stands()
    ensures computed { (a b : ReferenceSet) → ⟦<ReferenceSet as PartialEq>⟧.eq a b ≡ same_kept a b }
    ensures places { (a b : ReferenceSet) → Decides (⟦<ReferenceSet as PartialEq>⟧.eq a b) ((p : ℕ) → has a p ≡ has b p) }
    ensures kept { SamePlaces }
{}
