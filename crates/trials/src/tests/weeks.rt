// The weeks of ISO 8601: which days they have, and which years have 53 of them.
use super::answer;
use calendar::{Calendar, Refusal};
use gregorian::{Day, Week};
use std::test::Fail;

// A year, a month and a day, and the same day as a week date: a year, a week and a weekday, where
// Monday is 1.
struct IsoDay(u32, u32, u32, u32, u32, u32);

// Examples of ISO 8601 and of its usual references.
const ISO_DAYS: [IsoDay; 23] = [
    IsoDay(1977, 1, 1, 1976, 53, 6),
    IsoDay(1977, 1, 2, 1976, 53, 7),
    IsoDay(1977, 12, 31, 1977, 52, 6),
    IsoDay(1978, 1, 1, 1977, 52, 7),
    IsoDay(1978, 1, 2, 1978, 1, 1),
    IsoDay(1978, 12, 31, 1978, 52, 7),
    IsoDay(1979, 1, 1, 1979, 1, 1),
    IsoDay(1979, 12, 30, 1979, 52, 7),
    IsoDay(1979, 12, 31, 1980, 1, 1),
    IsoDay(1980, 1, 1, 1980, 1, 2),
    IsoDay(1980, 12, 28, 1980, 52, 7),
    IsoDay(1980, 12, 29, 1981, 1, 1),
    IsoDay(1980, 12, 30, 1981, 1, 2),
    IsoDay(1980, 12, 31, 1981, 1, 3),
    IsoDay(1981, 1, 1, 1981, 1, 4),
    IsoDay(1981, 12, 31, 1981, 53, 4),
    IsoDay(1982, 1, 1, 1981, 53, 5),
    IsoDay(1982, 1, 2, 1981, 53, 6),
    IsoDay(1982, 1, 3, 1981, 53, 7),
    IsoDay(1985, 4, 12, 1985, 15, 5),
    IsoDay(1995, 1, 1, 1994, 52, 7),
    IsoDay(1996, 12, 31, 1997, 1, 2),
    IsoDay(2008, 9, 27, 2008, 39, 6),
];

// The years from 1900 to 2199 with 53 weeks.
const LONG_YEARS: [u32; 53] = [
    1903, 1908, 1914, 1920, 1925, 1931, 1936, 1942, 1948, 1953, 1959, 1964, 1970, 1976, 1981, 1987,
    1992, 1998, 2004, 2009, 2015, 2020, 2026, 2032, 2037, 2043, 2048, 2054, 2060, 2065, 2071, 2076,
    2082, 2088, 2093, 2099, 2105, 2111, 2116, 2122, 2128, 2133, 2139, 2144, 2150, 2156, 2161, 2167,
    2172, 2178, 2184, 2189, 2195,
];

// Places count from a Monday, so the day at place d lies in the week at place d / 7.
#[test]
fn days_lie_in_weeks(rt: HostRuntime) -> Result<(), Fail> {
    for &IsoDay(year, month, day, week_year, week, weekday) in &ISO_DAYS {
        let place = answer(Day::from_parts(year, month, day))?;
        let (in_year, in_week) = Week::at_or_last(place / 7).parts();
        assert_eq!(rt;
            (in_year, in_week, place % 7 + 1),
            (week_year, week, weekday)
        );
    }
    Ok(())
}

#[test]
fn long_years(rt: HostRuntime) {
    let is_long = |year: &u32| Week::from_parts(*year, 53).is_ok();
    for year in 1900..=2199 {
        assert_eq!(rt; is_long(&year), LONG_YEARS.contains(&year));
        assert_eq!(rt; answer(Week::from_parts(year, 54)), Err(Refusal::NoStamp));
        assert_eq!(rt; answer(Week::from_parts(year, 0)), Err(Refusal::NoStamp));
    }
    assert_eq!(rt; (1900..=2199).filter(is_long).count(), 53);
}
