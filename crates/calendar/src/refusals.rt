// Why a call was refused: the closed list, in the order of the refusals' numbers.
ghost use Rattle.calendar.specs.Refusals.{number_of};
ghost use Rattle.calendar.specs.Sentences.{sentence};
ghost use Rattle.calendar.specs.declared.refusals.Refusal.{Refusal};
ghost use Rattle.std.specs.Prelude.{◌≡◌, ◌==◌, Decides, Some};

use std::error::Error;
use std::fmt;

#[derive(Clone, Copy, Debug, PartialEq, Eq)]
pub enum Refusal {
    // The register's area, the rows area or the output area is too small.
    AreaTooSmall = 1,
    // The register's area is no whole number of slots, or too large.
    AreaUnfit = 2,
    // The image breaks a rule of its format.
    ImageBroken = 3,
    // The image belongs to another calendar.
    OtherCalendar = 4,
    // A field of a contract is smaller or larger than it may be.
    OutsideLimits = 5,
    // The contract is there already.
    ContractPresent = 6,
    // The contract is not there.
    ContractAbsent = 7,
    // Every slot holds a contract.
    NoSlotFree = 8,
    // The change count can grow no further.
    CountExhausted = 9,
    // A point whose first stamp comes after its second.
    PointBackward = 10,
    // Parts or a text that name no stamp.
    NoStamp = 11,
    // A line of a bulletin breaks its rule.
    LineBroken = 12,
    // A question breaks its rule.
    QuestionBroken = 13,
    // The source has more items than a source can list.
    SourceLong = 14,
    // The item's number is at or past the source's length.
    NoItem = 15,
    // A reference set whose listing needs too many ranges.
    TooManyRanges = 16,
    // The price of a joined row is too high.
    PriceTooHigh = 17,
    // An item of the asking is not written yet.
    ItemUnwritten = 18,
}

impl Refusal {
    // The refusal's number, from 1 to 18. No two refusals have the same. Constant time.
    pub fn number(self) -> u32
        ensures value { result ≡ number_of self }
        ensures alone { (other : Refusal) → number_of other ≡ result → other ≡ self }
    {
        self as u32
    }
}

// What `==` computes: whether two refusals have the same number, and so whether they are the same.
// The call does nothing.
pub fn equality_stands()
    ensures numbers { (x y : Refusal) → ⟦<Refusal as PartialEq>⟧.eq x y ≡ (number_of x == number_of y) }
    ensures same { (x y : Refusal) → Decides (⟦<Refusal as PartialEq>⟧.eq x y) (x ≡ y) }
{}

// What the refusal means to somebody at the panel.
impl fmt::Display for Refusal {
    ghost output = { λ r. Some (sentence r) };

    fn fmt<W: fmt::Write>(&self, f: &mut fmt::Formatter<W>) -> fmt::Result {
        let sentence = match self {
            Refusal::AreaTooSmall => "the area is too small for what it is to hold",
            Refusal::AreaUnfit => "a register's area is a whole number of slots, up to a limit",
            Refusal::ImageBroken => "the image is damaged: it breaks a rule of its format",
            Refusal::OtherCalendar => "the image belongs to another calendar",
            Refusal::OutsideLimits =>
                "a number of the contract is smaller or larger than it may be",
            Refusal::ContractPresent => "this contract is in the register already",
            Refusal::ContractAbsent => "no such contract is in the register",
            Refusal::NoSlotFree => "the register is full",
            Refusal::CountExhausted => "the register has counted all the changes that it can",
            Refusal::PointBackward => "the point's first stamp comes after its second",
            Refusal::NoStamp => "the calendar has no such stamp",
            Refusal::LineBroken => "a line of the bulletin is not written as it must be",
            Refusal::QuestionBroken => "the question is not put together as it must be",
            Refusal::SourceLong => "the source has more items than can be counted",
            Refusal::NoItem => "the source has no item of that number",
            Refusal::TooManyRanges => "a set of reference stamps needs too many ranges",
            Refusal::PriceTooHigh => "the joined price is too high",
            Refusal::ItemUnwritten => "not every item of the asking is written yet",
        };
        f.write_str(sentence)
    }
}

impl Error for Refusal {}
