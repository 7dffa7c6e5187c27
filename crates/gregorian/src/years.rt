// The arithmetic of the Gregorian years from 1900 to 2199: no function here has a loop.
ghost use Rattle.gregorian.specs.Dates.{last_day};
ghost use Rattle.gregorian.specs.Years.{leap, year_start, month_start};
ghost use Rattle.std.specs.Prelude.{◌≡◌, ℕ, ◌+◌, ◌<◌, ◌≤◌};

pub(crate) const FIRST_YEAR: u32 = 1900;

pub(crate) const LAST_YEAR: u32 = 2199;

// Whether the year has 366 days.
pub(crate) fn is_leap(year: u32) -> bool
    ensures { result ≡ leap year }
{
    year % 4 == 0 && (year % 100 != 0 || year % 400 == 0)
}

// The days of the first `n` years from 1900 on: a day more for each year that 4 divides, of which
// 1900 is none, one less for each century's first year, one more again for 2000.
#[tactic(auto, using(crate::specs::Counting::year_formula_lem))]
pub(crate) fn year_start(n: u32) -> u32
    requires { n ≤ 300 }
    ensures { result ≡ year_start n }
{
    365 * n + (n + 3) / 4 - (n + 99) / 100 + (n + 299) / 400
}

// The days of the first `k` months of a year. Months of 30 and 31 days alternate, but for two of 31
// together twice, as the multiples of 367 / 12 do; February then lacks one day or two.
pub(crate) fn month_start(leap: bool, k: u32) -> u32
    requires { k ≤ 12 }
    ensures { result ≡ month_start leap k }
{
    let even = (367 * k + 5) / 12;
    if k < 2 {
        even
    } else if leap {
        even - 1
    } else {
        even - 2
    }
}

// The year of a day, counted from 1900. A year has at most 366 days, and over 300 years what the
// years fall short of that comes to less than one year, so the quotient is at most one too small.
#[tactic(auto, using(crate::specs::Counting::year_starts, crate::specs::Counting::year_over))]
pub(crate) fn year_of(place: u32) -> u32
    requires { place ≤ last_day }
    ensures { (result < 300) × (year_start result ≤ place) × (place < year_start (result + 1)) }
{
    let n = place / 366;
    if place < year_start(n + 1) { n } else { n + 1 }
}

// The month of a day of the year, counted from 0: months have fewer than 32 days, and over a year
// what they fall short of that comes to less than one month.
#[tactic(auto, using(crate::specs::Counting::month_end, crate::specs::Counting::month_low, crate::specs::Counting::month_over))]
pub(crate) fn month_of(leap: bool, rest: u32) -> u32
    requires { rest < month_start leap 12 }
    ensures { (result < 12) × (month_start leap result ≤ rest) × (rest < month_start leap (result + 1)) }
{
    let k = rest / 32;
    if rest < month_start(leap, k + 1) {
        k
    } else {
        k + 1
    }
}
