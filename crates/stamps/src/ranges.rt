// The ranges of a set, one by one.
ghost use Rattle.std.specs.Prelude.{◌≡◌, length, IfSome, Some};
ghost use Rattle.std.specs.Iterator.{YieldsFirst, item_count, at_most, UpTo};
ghost use Rattle.std.specs.Iterator.SizeHint.{IsWithinCount};

use crate::sets::Range;
use std::marker::Model;

// The ranges of a set in rising order, seen as the list of those that are left.
#[derive(Drop)]
pub struct Ranges<'a> {
    pub(crate) edges: &'a [u32],
}

impl<'a> Model for Ranges<'a> {
    ghost use Rattle.std.specs.Prelude.{◌≡◌, ◌%◌, List, length};
    ghost use Rattle.stamps.specs.Edges.{ranges, Rises};
    ghost use Rattle.stamps.specs.declared.sets.Range.{Range};

    ghost Value = { List Range };

    ghost view = { λ it. ranges it.edges.now };

    ghost invariant = { λ it. (length it.edges.now % 2 ≡ 0) × Rises it.edges.now };
}

impl<'a> Iterator for Ranges<'a> {
    type Item = Range;

    ghost next_gives = { YieldsFirst (λ left. left) };

    ghost remaining = { item_count (λ left. left) };

    fn next(&mut self) -> Option<Range> {
        let [low, past, rest @ ..] = self.edges else {
            return None;
        };
        self.edges = rest;
        Some(Range {
            low: *low,
            high: *past - 1,
        })
    }

    // The first two clauses repeat the trait's, since a method's own stand in place of them.
    fn size_hint(&self) -> (usize, Option<usize>)
        ensures lower { IsWithinCount result.0 (at_most (length self.now)) }
        ensures upper { IfSome result.1 (UpTo (at_most (length self.now))) }
        ensures exact { result ≡ (length self.now, Some (length self.now)) }
    {
        let left = self.edges.len() / 2;
        (left, Some(left))
    }
}
