// Texts and their places, both ways, and texts that no stamp has.
use super::answer;
use calendar::{Hour, Printable, Refusal};
use gregorian::{Day, Week};
use std::process::Abort;

struct Written(&'static str, u32);

const HOURS: [Written; 4] = [
    Written("000000", 0),
    Written("000009", 9),
    Written("004217", 4217),
    Written("999999", 999999),
];

const DAYS: [Written; 6] = [
    Written("1900-01-01", 0),
    Written("1900-02-28", 58),
    Written("1969-07-20", 25402),
    Written("2000-02-29", 36583),
    Written("2026-01-31", 46051),
    Written("2199-12-31", 109572),
];

const WEEKS: [Written; 8] = [
    Written("1900-W01", 0),
    Written("1900-W52", 51),
    Written("1901-W01", 52),
    Written("1999-W52", 5217),
    Written("2000-W01", 5218),
    Written("2020-W53", 6313),
    Written("2021-W01", 6314),
    Written("2199-W52", 15652),
];

const NO_HOURS: [&str; 12] = [
    "", "4217", "04217", "0004217", "1000000", "+04217", "-04217", " 04217", "04217 ", "00421a",
    "0x1079", "004.17",
];

const NO_DAYS: [&str; 27] = [
    "",
    "2000",
    "2000-02",
    "20000229",
    "2000-2-29",
    "2000-02-9",
    "2000-02-029",
    "02000-02-29",
    "2000-02-29 ",
    " 2000-02-29",
    "2000/02/29",
    "2000-02/29",
    "2000 02-29",
    "2000-02:29",
    "20-00-2029",
    "+200-02-29",
    "2000-+2-29",
    "2000-02-+9",
    "2000- 2-29",
    "2000-02- 9",
    "2000-O2-29",
    "2000-02-2g",
    "MM00-02-29",
    "1999-02-29",
    "1899-12-31",
    "2200-01-01",
    "2000-13-01",
];

const NO_WEEKS: [&str; 22] = [
    "",
    "2020",
    "2020-W5",
    "2020W53",
    "2020-53",
    "2020-W053",
    "02020-W53",
    "2020-W53 ",
    " 2020-W53",
    "2020-W53-1",
    "2020-w53",
    "2020-V53",
    "2020W-53",
    "2020/W53",
    "2020-W+3",
    "2020-W 3",
    "2020-W3x",
    "+020-W53",
    "2020-W00",
    "2020-W54",
    "2021-W53",
    "2200-W01",
];

fn all_read<T: Printable>(rt: &impl Abort, rows: &[Written]) {
    for &Written(text, place) in rows {
        assert_eq!(rt; answer(T::read(text.as_bytes())), Ok(place));
        has_text(rt, T::at_or_last(place), text.as_bytes());
    }
}

// The stamp's text is this one, and at the positions past its end there is nothing.
fn has_text<T: Printable>(rt: &impl Abort, stamp: T, text: &[u8]) {
    for i in 0..20 {
        assert_eq!(rt; stamp.text_byte(i), text.get(i).copied());
    }
}

fn all_refused<T: Printable>(rt: &impl Abort, texts: &[&str]) {
    for text in texts {
        assert_eq!(rt;
            answer(T::read(text.as_bytes())),
            Err(Refusal::NoStamp),
            "{}",
            text
        );
    }
}

#[test]
fn stamps_are_written(rt: HostRuntime) {
    all_read::<Hour>(&rt, &HOURS);
    all_read::<Day>(&rt, &DAYS);
    all_read::<Week>(&rt, &WEEKS);
}

#[test]
fn other_texts_are_refused(rt: HostRuntime) {
    all_refused::<Hour>(&rt, &NO_HOURS);
    all_refused::<Day>(&rt, &NO_DAYS);
    all_refused::<Week>(&rt, &NO_WEEKS);
}
