// Sets of reference stamps as text.
ghost use Rattle.texts.specs.Writing.{set_text};
ghost use Rattle.stamps.specs.Sets.{listing};
ghost use Rattle.std.specs.Prelude.{Some};

use calendar::{Printable, Text};
use stamps::ReferenceSet;
use std::fmt;
use std::marker::PhantomData;

// A set, shown by its ranges, in rising order and by the texts of a calendar's stamps. Takes a step for
// each byte.
#[derive_where(Clone, Copy)]
pub struct SetText<'a, C> {
    pub set: &'a ReferenceSet,
    pub calendar: PhantomData<C>,
}

impl<C: Printable> fmt::Display for SetText<'_, C> {
    ghost output = { λ r. Some (set_text C.Calendar C.Printable.own (listing r.set.now)) };

    #[tactic(auto, using(std::proofs::lemmas::Grind::common_steps, crate::proofs::Items::step))]
    fn fmt<W: fmt::Write>(&self, f: &mut fmt::Formatter<W>) -> fmt::Result {
        f.write_str("{")?;
        let mut before = "";
        for range in self.set.ranges() {
            let (low, high) = (C::at_or_last(range.low), C::at_or_last(range.high));
            write!(f, "{before}{}..{}", Text(low), Text(high))?;
            before = ", ";
        }
        f.write_str("}")
    }
}
