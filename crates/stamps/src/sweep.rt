// One sweep over the edges of two sets serves every operation on them.
ghost use Rattle.stamps.specs.Sets.{has, Exactly};
ghost use Rattle.stamps.specs.Sweeps.{after, Turns};
ghost use Rattle.std.specs.Prelude.{◌≡◌, ◌+◌, Bool, false, length};
ghost use Rattle.std.specs.Iterator.{at_most};

use crate::sets::{EDGES, ReferenceSet};
use calendar::Refusal;

// An edge of either set, and whether each of the two has the places from there on.
#[derive(Clone, Copy)]
struct Turn {
    edge: u32,
    in_first: bool,
    in_second: bool,
}

// The edges of two sets in rising order, each once: those of each that are left.
#[derive(Drop)]
struct Merged<'a> {
    first: &'a [u32],
    second: &'a [u32],
}

impl<'a> Iterator for Merged<'a> {
    type Item = Turn;

    ghost next_gives = { Turns };

    ghost remaining = { λ s. at_most (length s.first.now + length s.second.now) };

    // A set has an even number of edges, so an odd number left means that an odd number is passed.
    fn next(&mut self) -> Option<Turn> {
        let edge = match (self.first, self.second) {
            ([x, ..], [y, ..]) => (*x).min(*y),
            ([x, ..], []) | ([], [x, ..]) => *x,
            ([], []) => return None,
        };
        self.first = past(self.first, edge);
        self.second = past(self.second, edge);
        Some(Turn {
            edge,
            in_first: self.first.len() % 2 == 1,
            in_second: self.second.len() % 2 == 1,
        })
    }
}

// The edges past the first, if that is `edge`.
fn past(edges: &[u32], edge: u32) -> &[u32]
    ensures { result.now ≡ after edges.now edge }
{
    match edges {
        [first, rest @ ..] if *first == edge => rest,
        _ => edges,
    }
}

// The places at which `holds` is true of whether each of two sets has the place; `op` is what it
// computes. 16 where these take too many ranges.
pub(crate) fn combine<F: Fn(bool, bool) -> bool>(
    holds: F,
    a: &ReferenceSet,
    b: &ReferenceSet,
) -> Result<ReferenceSet, Refusal>
    ghost op: { Bool → Bool → Bool }
    requires callable { F.IsAlwaysCallable holds }
    requires computes { (x y r : Bool) → F.post holds x y r → r ≡ op x y }
    requires none { op false false ≡ false }
    ensures { Exactly result (λ p. op (has a.now p) (has b.now p)) }
{
    // In the shape of the set that they become.
    let mut used = 0;
    let mut edges = [0; EDGES];
    let turns = Merged {
        first: &a.edges[..a.used],
        second: &b.edges[..b.used],
    };
    for turn in turns {
        // The combination has an edge where the answer is another than before it.
        if holds(turn.in_first, turn.in_second) != (used % 2 == 1) {
            if used == EDGES {
                return Err(Refusal::TooManyRanges);
            }
            edges[used] = turn.edge;
            used += 1;
        }
    }
    Ok(ReferenceSet { used, edges })
}
