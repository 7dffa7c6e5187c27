// Sessions by example: a line, and what it is answered with.
use language::Language;
use script::{Calendars, Points, Session, is_passed_over};
use std::alloc::Global;
use std::process::Abort;
use std::test::Fail;

#[derive(Clone, Copy)]
struct Turn(&'static str, &'static str);

const TALK: [Turn; 37] = [
    // Before a calendar is chosen.
    Turn(
        "place 2026-01-01",
        "? choose a calendar first: calendar hours, calendar days or calendar weeks",
    ),
    Turn(
        "help",
        "? choose a calendar first: calendar hours, calendar days or calendar weeks",
    ),
    Turn(
        "calendar",
        "? too many or too few words; help shows the form",
    ),
    Turn(
        "calendar moons",
        "? the calendars are hours, days and weeks",
    ),
    // Days.
    Turn("calendar days", "ok"),
    Turn("place 2000-02-29", "ok 36583"),
    Turn(
        "place 2100-02-29",
        "refused 11: the calendar has no such stamp",
    ),
    Turn("place", "? too many or too few words; help shows the form"),
    Turn("stamp 109572", "ok 2199-12-31"),
    Turn("stamp 109573", "ok absent"),
    Turn("stamp 4294967295", "ok absent"),
    Turn(
        "stamp 4294967296",
        "? a number is written in digits and is at most 4294967295",
    ),
    Turn(
        "stamp +5",
        "? a number is written in digits and is at most 4294967295",
    ),
    Turn("stamp 00005", "ok 1900-01-06"),
    Turn("parts 2024 2 29", "ok 2024-02-29"),
    Turn(
        "parts 2023 2 29",
        "refused 11: the calendar has no such stamp",
    ),
    Turn(
        "parts 2024 8",
        "? too many or too few words; help shows the form",
    ),
    Turn(
        "parts 2024 2 x",
        "? a number is written in digits and is at most 4294967295",
    ),
    Turn(
        "parts 1 2 3 4",
        "? too many or too few words; help shows the form",
    ),
    // Spaces make no difference, letters do.
    Turn("   place    1900-01-02  ", "ok 1"),
    Turn("Place 1900-01-02", "? no such command; help lists them"),
    Turn("place\t1900-01-02", "? no such command; help lists them"),
    // Weeks.
    Turn("calendar weeks", "ok"),
    Turn("place 2020-W53", "ok 6313"),
    Turn(
        "place 2020-w53",
        "refused 11: the calendar has no such stamp",
    ),
    Turn(
        "place 1900-01-01",
        "refused 11: the calendar has no such stamp",
    ),
    Turn(
        "parts 2021 53",
        "refused 11: the calendar has no such stamp",
    ),
    Turn("parts 2021 1", "ok 2021-W01"),
    Turn(
        "parts 2021 1 1",
        "? too many or too few words; help shows the form",
    ),
    Turn("stamp 15652", "ok 2199-W52"),
    // Hours.
    Turn("calendar hours", "ok"),
    Turn("place 004217", "ok 4217"),
    Turn("place 4217", "refused 11: the calendar has no such stamp"),
    Turn(
        "parts 1000000",
        "refused 11: the calendar has no such stamp",
    ),
    Turn("parts 999999", "ok 999999"),
    Turn(
        "help me",
        "? too many or too few words; help shows the form",
    ),
    // A line that is not understood leaves the calendar chosen.
    Turn("stamp 0", "ok 000000"),
];

// The lines that `help` shows in the language of points.
const HELP_ON_POINTS: &str = "calendar hours|days|weeks           choose a calendar and start anew
place STAMP                         the place of a stamp
stamp PLACE                         the stamp at a place
parts COUNT                         the hour of that count
parts YEAR MONTH DAY                the day of that date
parts YEAR WEEK                     that week of that year
point P                             the point, in its shortest form
bind P STAMP                        the point at a reference stamp
lesser P Q                          the lesser of two points
greater P Q                         the greater of two points
compare before|equal|at-most P Q    where the comparison holds
relation before|meets|overlaps|during|equals S E P Q
                                    where S to E has the relation to P to Q
holds S E P                         where S to E holds P
help                                this list
points are now, S, S+, +S or S+T
ok";

// Points of days, in the language that has them.
const TALK_OF_POINTS: [Turn; 22] = [
    Turn("calendar days", "ok"),
    Turn("point 1900-01-01+2199-12-31", "ok now"),
    Turn("point 2026-04-01+2199-12-31", "ok 2026-04-01+"),
    Turn(
        "point 2026-02-01+2026-01-01",
        "refused 10: the point's first stamp comes after its second",
    ),
    Turn("point today", "refused 11: the calendar has no such stamp"),
    Turn("point", "? too many or too few words; help shows the form"),
    Turn("bind now 2026-02-20", "ok 2026-02-20"),
    Turn("bind 2026-04-01+ 2026-03-15", "ok 2026-04-01"),
    Turn("bind 2026-04-01+ 2026-04-15", "ok 2026-04-15"),
    Turn("lesser now 2026-03-01", "ok +2026-03-01"),
    Turn("greater now 2026-03-01", "ok 2026-03-01+"),
    Turn(
        "compare before 2026-03-01 now",
        "ok {2026-03-02..2199-12-31}",
    ),
    Turn(
        "compare equal now 2026-03-01",
        "ok {2026-03-01..2026-03-01}",
    ),
    Turn(
        "compare at-most now 2026-03-01",
        "ok {1900-01-01..2026-03-01}",
    ),
    Turn("compare before now now", "ok {}"),
    Turn(
        "compare after now now",
        "? points are compared by before, equal and at-most",
    ),
    Turn(
        "relation overlaps 2026-02-01 now 2026-03-01 2026-04-01",
        "ok {2026-03-02..2199-12-31}",
    ),
    Turn(
        "relation during 2026-02-01 now 2026-01-01 2026-04-01",
        "ok {2026-02-02..2026-04-01}",
    ),
    Turn(
        "relation touches 2026-02-01 now 2026-03-01 2026-04-01",
        "? the relations are before, meets, overlaps, during and equals",
    ),
    Turn(
        "holds 2026-02-01 now 2026-02-15",
        "ok {2026-02-16..2199-12-31}",
    ),
    Turn("help", HELP_ON_POINTS),
    // What the language of calendars has, this one has too.
    Turn("place 2000-02-29", "ok 36583"),
];

// The session replies to each line as it should.
fn all_replied<L: Language>(rt: &impl Abort, heap: Global, turns: &[Turn]) -> Result<(), Fail> {
    let mut session = Session::<L>::new();
    for Turn(line, reply) in turns {
        let got = session.reply(heap, line)?;
        assert_eq!(rt; got.as_str(), *reply, "{}", *line);
    }
    Ok(())
}

#[test]
fn replies(rt: HostRuntime) -> Result<(), Fail> {
    all_replied::<Calendars>(&rt, rt.alloc(), &TALK)
}

#[test]
fn replies_on_points(rt: HostRuntime) -> Result<(), Fail> {
    all_replied::<Points>(&rt, rt.alloc(), &TALK_OF_POINTS)
}

#[test]
fn calendars_have_no_points(rt: HostRuntime) -> Result<(), Fail> {
    let unknown = "? no such command; help lists them";
    let turns = [Turn("point now", unknown), Turn("holds", unknown)];
    all_replied::<Calendars>(&rt, rt.alloc(), &turns)
}

#[test]
fn passes_over(rt: HostRuntime) {
    assert!(rt; is_passed_over(""));
    assert!(rt; is_passed_over("   "));
    assert!(rt; is_passed_over("# a remark"));
    assert!(rt; !is_passed_over(" # no remark"));
    assert!(rt; !is_passed_over("help"));
}
