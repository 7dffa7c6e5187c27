// Where one span is before another, at the same place, or at most there. No comparison is refused,
// and each takes constant time. Each is a call of its own, since its contract names it:
// the clauses `places` and `few` have another test and another number in each.
ghost use Rattle.spans.specs.Spans.{bound_in};
ghost use Rattle.spans.specs.Stretches.{Where};
ghost use Rattle.stamps.specs.Sets.{listing};
ghost use Rattle.std.specs.Prelude.{◌≤◌, length, nat_eq, nat_le, nat_lt};

use crate::extents::Extent;
use crate::spans::Span;
use stamps::ReferenceSet;

impl Extent {
    // Where `p` is before `q`.
    pub fn before(self, p: Span, q: Span) -> ReferenceSet
        ensures places { Where self.last result (λ r. nat_lt (bound_in self.last p r) (bound_in self.last q r)) }
        ensures few { length (listing result) ≤ 2 }
    {
        self.within(q, p).cut_from(&self.whole().listed())
    }

    // Where `p` is at most `q`.
    pub fn at_most(self, p: Span, q: Span) -> ReferenceSet
        ensures places { Where self.last result (λ r. nat_le (bound_in self.last p r) (bound_in self.last q r)) }
        ensures few { length (listing result) ≤ 1 }
    {
        self.within(p, q).listed()
    }

    // Where `p` equals `q`.
    pub fn equal(self, p: Span, q: Span) -> ReferenceSet
        ensures places { Where self.last result (λ r. nat_eq (bound_in self.last p r) (bound_in self.last q r)) }
        ensures few { length (listing result) ≤ 1 }
    {
        self.same(p, q).listed()
    }
}
