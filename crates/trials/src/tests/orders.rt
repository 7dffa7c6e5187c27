// The bounds, the order and the marks of the calendars, and the numbers of the refusals.
use super::answer;
use calendar::{Calendar, Hour, Refusal};
use gregorian::{Day, Week};
use std::cmp::Ordering;
use std::process::Abort;

// The refusals in the order of their numbers, from 1.
const REFUSALS: [Refusal; 18] = [
    Refusal::AreaTooSmall,
    Refusal::AreaUnfit,
    Refusal::ImageBroken,
    Refusal::OtherCalendar,
    Refusal::OutsideLimits,
    Refusal::ContractPresent,
    Refusal::ContractAbsent,
    Refusal::NoSlotFree,
    Refusal::CountExhausted,
    Refusal::PointBackward,
    Refusal::NoStamp,
    Refusal::LineBroken,
    Refusal::QuestionBroken,
    Refusal::SourceLong,
    Refusal::NoItem,
    Refusal::TooManyRanges,
    Refusal::PriceTooHigh,
    Refusal::ItemUnwritten,
];

// The mark, the last place, and the places of the first stamp, of the last one and of the one that
// stands for all past it.
fn bounds<T: Calendar>() -> [u32; 5] {
    let (first, last, past) = (T::first(), T::last(), T::at_or_last(u32::MAX));
    [
        T::MARK,
        T::LAST_PLACE,
        first.place(),
        last.place(),
        past.place(),
    ]
}

fn orders<T: Calendar>() -> [Ordering; 3] {
    let (first, last) = (T::first(), T::last());
    [first.order(last), last.order(last), last.order(first)]
}

// The calendar with that mark ends at that place.
fn ends_at<T: Calendar>(rt: &impl Abort, mark: u32, last: u32) {
    assert_eq!(rt; bounds::<T>(), [mark, last, 0, last, last]);
    assert_eq!(rt;
        orders::<T>(),
        [Ordering::Less, Ordering::Equal, Ordering::Greater]
    );
    assert!(rt; T::at_place(last).is_some());
    assert!(rt; T::at_place(last.saturating_add(1)).is_none());
}

#[test]
fn calendars_end(rt: HostRuntime) {
    ends_at::<Hour>(&rt, 1, 999999);
    ends_at::<Day>(&rt, 2, 109572);
    ends_at::<Week>(&rt, 3, 15652);
}

#[test]
fn hours_are_counted(rt: HostRuntime) {
    for &count in &[0, 1, 4217, 999999] {
        assert_eq!(rt; answer(Hour::from_parts(count)), Ok(count));
        assert_eq!(rt; Hour::at_or_last(count).parts(), count);
    }
    assert_eq!(rt; answer(Hour::from_parts(1000000)), Err(Refusal::NoStamp));
}

#[test]
fn refusals_have_numbers(rt: HostRuntime) {
    for (number, &refusal) in (1u32..=18).zip(&REFUSALS) {
        assert_eq!(rt; refusal.number(), number);
        assert_eq!(rt; refusal == Refusal::NoStamp, number == 11);
    }
}
