// Dates and their places, both ways, and dates that no day has.
use super::answer;
use calendar::{Calendar, Refusal};
use gregorian::Day;

// A year, a month, a day of the month, and the place: the days from 1900-01-01 on.
struct Dated(u32, u32, u32, u32);

const DATES: [Dated; 44] = [
    // The first day and the last, and the first leap day.
    Dated(1900, 1, 1, 0),
    Dated(1900, 2, 28, 58),
    Dated(1900, 3, 1, 59),
    Dated(1904, 2, 29, 1519),
    Dated(2199, 12, 31, 109572),
    // Days that are well known.
    Dated(1945, 5, 8, 16563),
    Dated(1957, 10, 4, 21095),
    Dated(1969, 7, 20, 25402),
    Dated(1970, 1, 1, 25567),
    Dated(1989, 11, 9, 32819),
    Dated(2038, 1, 19, 50422),
    // 2000 is a leap year, 2100 is none.
    Dated(1999, 12, 31, 36523),
    Dated(2000, 1, 1, 36524),
    Dated(2000, 2, 28, 36582),
    Dated(2000, 2, 29, 36583),
    Dated(2000, 3, 1, 36584),
    Dated(2096, 2, 29, 71647),
    Dated(2100, 2, 28, 73107),
    Dated(2100, 3, 1, 73108),
    Dated(2104, 2, 29, 74568),
    // The month ends of a common year and of a leap year.
    Dated(2023, 1, 31, 44955),
    Dated(2023, 2, 28, 44983),
    Dated(2023, 3, 31, 45014),
    Dated(2023, 4, 30, 45044),
    Dated(2023, 5, 31, 45075),
    Dated(2023, 6, 30, 45105),
    Dated(2023, 7, 31, 45136),
    Dated(2023, 8, 31, 45167),
    Dated(2023, 9, 30, 45197),
    Dated(2023, 10, 31, 45228),
    Dated(2023, 11, 30, 45258),
    Dated(2023, 12, 31, 45289),
    Dated(2024, 1, 31, 45320),
    Dated(2024, 2, 29, 45349),
    Dated(2024, 3, 31, 45380),
    Dated(2024, 4, 30, 45410),
    Dated(2024, 5, 31, 45441),
    Dated(2024, 6, 30, 45471),
    Dated(2024, 7, 31, 45502),
    Dated(2024, 8, 31, 45533),
    Dated(2024, 9, 30, 45563),
    Dated(2024, 10, 31, 45594),
    Dated(2024, 11, 30, 45624),
    Dated(2024, 12, 31, 45655),
];

struct NoDate(u32, u32, u32);

const NO_DATES: [NoDate; 36] = [
    // Years that are no leap years.
    NoDate(1900, 2, 29),
    NoDate(1999, 2, 29),
    NoDate(2100, 2, 29),
    // Years, months and days outside their bounds.
    NoDate(0, 1, 1),
    NoDate(1899, 12, 31),
    NoDate(2200, 1, 1),
    NoDate(u32::MAX, 1, 1),
    NoDate(2000, 0, 1),
    NoDate(2000, 13, 1),
    NoDate(2000, u32::MAX, 1),
    NoDate(2000, 1, 0),
    NoDate(2000, 1, u32::MAX),
    // The day after the last of each month of a common year and of a leap year.
    NoDate(2023, 1, 32),
    NoDate(2023, 2, 29),
    NoDate(2023, 3, 32),
    NoDate(2023, 4, 31),
    NoDate(2023, 5, 32),
    NoDate(2023, 6, 31),
    NoDate(2023, 7, 32),
    NoDate(2023, 8, 32),
    NoDate(2023, 9, 31),
    NoDate(2023, 10, 32),
    NoDate(2023, 11, 31),
    NoDate(2023, 12, 32),
    NoDate(2024, 1, 32),
    NoDate(2024, 2, 30),
    NoDate(2024, 3, 32),
    NoDate(2024, 4, 31),
    NoDate(2024, 5, 32),
    NoDate(2024, 6, 31),
    NoDate(2024, 7, 32),
    NoDate(2024, 8, 32),
    NoDate(2024, 9, 31),
    NoDate(2024, 10, 32),
    NoDate(2024, 11, 31),
    NoDate(2024, 12, 32),
];

#[test]
fn dates_have_places(rt: HostRuntime) {
    for &Dated(year, month, day, place) in &DATES {
        assert_eq!(rt; answer(Day::from_parts(year, month, day)), Ok(place));
        assert_eq!(rt; Day::at_or_last(place).parts(), (year, month, day));
    }
}

#[test]
fn no_such_dates(rt: HostRuntime) {
    for &NoDate(year, month, day) in &NO_DATES {
        assert_eq!(rt;
            answer(Day::from_parts(year, month, day)),
            Err(Refusal::NoStamp)
        );
    }
}
