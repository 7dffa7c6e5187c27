// Sets of places by example, with as many ranges as there may be and with one too many.
use calendar::Refusal;
use stamps::{Range, ReferenceSet};
use std::test::Fail;

// Every second place from `from` on, `n` of them: each is a range of its own.
fn every_second(from: u32, n: usize) -> Result<ReferenceSet, Refusal> {
    let mut set = ReferenceSet::empty();
    for place in (from..=u32::MAX).step_by(2).take(n) {
        set = set.or(&ReferenceSet::range(place, place))?;
    }
    Ok(set)
}

#[test]
fn sixteen_ranges_and_no_more(rt: HostRuntime) -> Result<(), Fail> {
    let even = every_second(0, 16)?;
    assert_eq!(rt; even.count(), 16);
    assert!(rt; even.contains(30) && !even.contains(29) && !even.contains(32));
    assert!(rt; every_second(0, 17) == Err(Refusal::TooManyRanges));
    // What is between the ranges, and past the last, makes as many again, or one more.
    assert_eq!(rt; even.not(999999)?.count(), 16);
    assert!(rt; every_second(1, 16)?.not(999999) == Err(Refusal::TooManyRanges));
    assert!(rt; even.or(&every_second(1, 16)?)? == ReferenceSet::full(31));
    Ok(())
}

#[test]
fn ranges_are_cut_and_joined(rt: HostRuntime) -> Result<(), Fail> {
    let touching = ReferenceSet::range(3, 5).or(&ReferenceSet::range(6, 9))?;
    assert_eq!(rt; touching.range_at(0), Some(Range { low: 3, high: 9 }));
    assert_eq!(rt; touching.range_at(1), None);
    let cut = ReferenceSet::range(10, 20).without(&ReferenceSet::range(13, 15))?;
    assert_eq!(rt; cut.range_at(0), Some(Range { low: 10, high: 12 }));
    assert_eq!(rt; cut.range_at(1), Some(Range { low: 16, high: 20 }));
    assert!(rt; cut.and(&ReferenceSet::range(0, 12))? == ReferenceSet::range(10, 12));
    assert!(rt; cut.not(5)? == ReferenceSet::full(5));
    assert!(rt; ReferenceSet::range(3, 2) == ReferenceSet::empty());
    Ok(())
}

#[test]
fn places_end_at_their_limit(rt: HostRuntime) {
    let all = ReferenceSet::full(u32::MAX);
    assert!(rt; all.contains(16777215) && !all.contains(16777216));
    assert!(rt; all == ReferenceSet::full(16777215));
    assert!(rt; ReferenceSet::range(16777216, u32::MAX) == ReferenceSet::empty());
}
