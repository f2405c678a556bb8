//! Records: copied, shared, and extended by the next one.

use crate::memory::{refuse, was_refused};
use crate::trying::{MEMORY, refused};
use sand_shared::Record;
use sand_testing::records::{dropped_on_a_site, is_four, is_three, may_follow, one_more};
use std::alloc::Global;
use std::test::Fail;

// Three drops on an empty site, then one that topples it.
fn three_and_one(alloc: Global) -> Result<(Record, Record), Fail> {
    let three = dropped_on_a_site(alloc, 0, 3)?;
    let one = one_more(alloc, &three)?;
    Ok((three, one))
}

#[test]
fn new_records_report_out_of_memory(rt: HostRuntime) -> Result<(), Fail> {
    let (three, one) = three_and_one(rt.alloc())?;
    assert!(rt; may_follow(&three, &one));
    refused!(rt, "Record::copy", alloc => three.copy(alloc), copy => is_three(&copy))?;
    refused!(rt, "Record::followed_by", alloc => three.followed_by(alloc, &one), four => is_four(&four))
}

// Makes two records of one. If that fails, the record is gone.
fn twice(alloc: Global, record: &mut Option<Record>) -> Result<bool, u32> {
    let Some(three) = record.take() else {
        return Ok(true);
    };
    match three.twice(alloc) {
        Ok((first, second)) => Ok(is_three(&first) && is_three(&second)),
        Err(_) => Err(MEMORY),
    }
}

#[test]
fn twice_reports_out_of_memory(rt: HostRuntime) -> Result<(), Fail> {
    let three = |alloc: Global| Ok(Some(dropped_on_a_site(alloc, 0, 3)?));
    refused!(rt, "Record::twice", three, twice)
}

// Whether a record of three drops is copied in three allocations: two lists of heights and an odometer.
fn is_copied_without_history(alloc: Global, three: &Record) -> bool {
    refuse(alloc, 4);
    let copied = three.copy(alloc).ok();
    let was_refused = was_refused(alloc);
    !was_refused && copied.is_some_and(|copy| is_three(&copy))
}

// Two records take one allocation more than a copy. Each can then be copied without one for its history, so both have
// the same list.
#[test]
fn two_records_share_their_history(rt: HostRuntime) -> Result<(), Fail> {
    let alloc = rt.alloc();
    let three = dropped_on_a_site(alloc, 0, 3)?;
    refuse(alloc, 5);
    let made = three.twice(alloc);
    assert!(rt; !was_refused(alloc));
    let (first, second) = made?;
    assert!(rt; is_copied_without_history(alloc, &first));
    assert!(rt; is_copied_without_history(alloc, &second));
    drop((first, second));
    Ok(())
}

// A record of three drops that is to grow, the one to be appended, and another record of the three drops.
type Growing = (Record, Record, Record);

// Appends to a record of three drops. Returns whether it is right and the other one unchanged, or the number of the
// fault.
fn append(alloc: Global, records: &mut Growing) -> Result<bool, u32> {
    let (three, one, other) = records;
    if !is_three(three) || !may_follow(three, one) {
        return Ok(false);
    }
    match three.append(alloc, one) {
        Ok(()) => Ok(is_four(three) && is_three(other)),
        Err(fault) => Err(fault.number()),
    }
}

// Both records of three drops have the same history.
fn shared(alloc: Global) -> Result<Growing, Fail> {
    let (three, one) = three_and_one(alloc)?;
    let (three, other) = three.twice(alloc)?;
    Ok((three, one, other))
}

#[test]
fn append_to_a_shared_history_reports_out_of_memory(rt: HostRuntime) -> Result<(), Fail> {
    refused!(rt, "Record::append", shared, append)
}

// The record that is to grow has room for one more drop.
fn roomy(alloc: Global) -> Result<Growing, Fail> {
    let (three, one) = three_and_one(alloc)?;
    let roomy = three.copy_with_room(alloc, 1)?;
    Ok((roomy, one, three))
}

// Copying the heights and the odometer takes two allocations. The history has room, so it takes none.
#[test]
fn drops_with_room_are_appended_without_memory(rt: HostRuntime) -> Result<(), Fail> {
    let alloc = rt.alloc();
    let mut records = roomy(alloc)?;
    refuse(alloc, 3);
    let outcome = append(alloc, &mut records);
    assert!(rt; !was_refused(alloc));
    drop(records);
    assert!(rt; outcome == Ok(true));
    Ok(())
}
