// Stamps that are taken apart into numbers and put together again.
use calendar::{Hour, Printable, Refusal};
use gregorian::{Day, Week};

// Each calendar has parts of its own, so no trait of the libraries takes a stamp apart.
pub trait Parted: Printable {
    // The stamp that this one's parts name.
    fn by_parts(self) -> Result<Self, Refusal>;
}

impl Parted for Hour {
    fn by_parts(self) -> Result<Hour, Refusal> {
        Hour::from_parts(self.parts())
    }
}

impl Parted for Day {
    fn by_parts(self) -> Result<Day, Refusal> {
        let (year, month, day) = self.parts();
        Day::from_parts(year, month, day)
    }
}

impl Parted for Week {
    fn by_parts(self) -> Result<Week, Refusal> {
        let (year, week) = self.parts();
        Week::from_parts(year, week)
    }
}
