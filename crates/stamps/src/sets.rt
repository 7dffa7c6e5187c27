// What a set of reference stamps is made of.
ghost use Rattle.std.specs.Prelude.{◌≡◌, ℕ, ◌%◌, ◌<◌, ◌≤◌, length, slice_index};

// A set has at most so many ranges.
pub const MOST_RANGES: usize = 16;

// Two edges for each range.
pub(crate) const EDGES: usize = 2 * MOST_RANGES;

// The places from `low` to `high`, both included.
#[derive(Clone, Copy, Debug, PartialEq, Eq)]
pub struct Range {
    pub low: u32,
    pub high: u32,
}

// A set of places: at most `MOST_RANGES` closed ranges in rising order, with a place or more
// between the high of one and the low of the next. No other set can exist.
//
// Each range is kept as two edges: its low, and the place past its high. The edges past `used` are 0,
// so that two sets are equal just if they have the same places.
//
// A length beside an array: there is no heap, a set is `Copy`, and the kit's `ArrayVec` is not.
#[derive(Clone, Copy, Eq)]
pub struct ReferenceSet {
    pub(crate) used: usize,
    pub(crate) edges: [u32; EDGES],
    ghost long: { length edges ≡ 32 },
    ghost fits: { used ≤ 32 },
    ghost even: { used % 2 ≡ 0 },
    ghost rises: { (i j : ℕ) → i < j → j < used → slice_index edges i < slice_index edges j },
    ghost rest: { (k : ℕ) → used ≤ k → slice_index edges k ≡ 0 },
}
