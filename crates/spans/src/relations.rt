// Where one interval has a relation to another, and where it holds a point. Nothing here is refused,
// and each call takes constant time.
ghost use Rattle.spans.specs.Relations.{holding, Filled, Related};
ghost use Rattle.spans.specs.Spans.{bound_in};
ghost use Rattle.spans.specs.Stretches.{Where};
ghost use Rattle.spans.specs.declared.relations.Relation.TheVariants.{Overlaps};
ghost use Rattle.stamps.specs.Sets.{listing};
ghost use Rattle.std.specs.Prelude.{◌≤◌, length};

use crate::extents::Extent;
use crate::spans::{Period, Span};
use crate::stretches::Stretch;
use stamps::ReferenceSet;

// How one interval lies to another. Each relation needs both to be non-empty.
#[derive(Clone, Copy)]
pub enum Relation {
    // It ends before the other starts, or just there.
    Before,
    // It ends just where the other starts.
    Meets,
    // They have a stamp in common.
    Overlaps,
    // It lies inside the other.
    During,
    // They start and end alike.
    Equals,
}

impl Extent {
    // Where `i` has the relation to `j`.
    #[tactic(auto, using(crate::proofs::Tests::filled_both))]
    pub fn related(self, relation: Relation, i: Period, j: Period) -> ReferenceSet
        ensures places { Related self.last relation i j result }
        ensures few { length (listing result) ≤ 5 }
    {
        match relation {
            Relation::Before => self.filled(self.within(i.end, j.start), i, j),
            Relation::Meets => self.filled(self.same(i.end, j.start), i, j),
            Relation::Overlaps => self.overlaps(i, j),
            Relation::During => {
                let ends = self.within(i.end, j.end);
                self.filled(self.within(j.start, i.start).shared(ends), i, j)
            }
            Relation::Equals => {
                let ends = self.same(i.end, j.end);
                self.filled(self.same(i.start, j.start).shared(ends), i, j)
            }
        }
    }

    // Where the interval holds the point.
    pub fn holds(self, i: Period, p: Span) -> ReferenceSet
        ensures places { Where self.last result (λ r. holding (bound_in self.last i.start r) (bound_in self.last i.end r) (bound_in self.last p r)) }
        ensures few { length (listing result) ≤ 2 }
    {
        let started = self.within(i.start, p).listed();
        self.within(i.end, p).cut_from(&started)
    }

    // The places of a stretch at which neither interval is empty.
    fn filled(self, s: Stretch, i: Period, j: Period) -> ReferenceSet
        ensures places { Filled self.last s i j result }
        ensures few { length (listing result) ≤ 3 }
    {
        let t = self.within(i.end, i.start).cut_from(&s.listed());
        self.within(j.end, j.start).cut_from(&t)
    }

    #[tactic(auto, using(crate::proofs::Tests::over_where))]
    fn overlaps(self, i: Period, j: Period) -> ReferenceSet
        ensures places { Related self.last Overlaps i j result }
        ensures few { length (listing result) ≤ 5 }
    {
        let t = self.filled(self.whole(), i, j);
        let t = self.within(j.end, i.start).cut_from(&t);
        self.within(i.end, j.start).cut_from(&t)
    }
}
