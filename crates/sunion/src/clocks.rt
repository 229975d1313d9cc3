//! When the first tuple of each bucket came: a place for each bucket, from the cursor's on.
ghost use Rattle.std.specs.Prelude.{◌≡◌, ◌≤◌, ◌<◌, ◌-◌, ◌/◌, ℕ, length, drop, OnOk, All, [], ◌∷◌, nat_le, ◌&&◌, None, IsTrue};
ghost use Rattle.dpc_lists.specs.Lists.{changed, last_below, nth};
ghost use Rattle.dpc_model.specs.Due.{waited_long};
ghost use Rattle.dpc_model.specs.Reading.{tuples_in};
ghost use Rattle.dpc_model.specs.declared.tuples.Tuple.{Tuple};
ghost use Rattle.sunion.specs.Clocks.{stamps_from, first_stamp, stamped_at, stamped, LiesFrom};

use dpc_lists::faults::NoMemory;
use dpc_model::tuples::Item;
use std::collections::VecDeque;

/// The clock at which the first tuple of each bucket came.
pub type Clocks = VecDeque<Option<u64>>;

/// The time of an item's tuple; 0 where there is none.
fn time_of(item: &Item) -> u64
    ensures { All (λ (t : Tuple). t.stime ≤ result) (tuples_in (item.now ∷ [])) }
{
    match item {
        Item::Stable(_, tuple) | Item::Tentative(tuple) => tuple.stime,
        _ => 0,
    }
}

/// The farthest place among the buckets of the items' tuples; 0 where there is none.
pub fn farthest(width: u64, cursor: u64, items: &[Item]) -> u64
    requires { 0 < width }
    ensures { All (λ (t : Tuple). t.stime / width - cursor ≤ result) (tuples_in items.now) }
{
    let mut latest: u64 = 0;
    for item in items {
        latest = latest.max(time_of(item));
    }
    (latest / width).saturating_sub(cursor)
}

/// Makes places up to this one. They say nothing yet, also where there is no memory for all of them.
pub fn make_places(clocks: &mut Clocks, place: u64) -> Result<(), NoMemory>
    ensures ok { OnOk result (place < length clocks.new.items) }
    ensures same { (first : ℕ) → stamps_from first clocks.new.items ≡ stamps_from first clocks.old.items }
{
    let len = clocks.len() as u64;
    if place < len {
        return Ok(());
    }
    clocks.reserve((place - len) as usize)?;
    while clocks.len() as u64 <= place {
        clocks.push_back(None)?;
    }
    Ok(())
}

/// A place gets a stamp, where it is there and has none.
fn stamp_place(clocks: &mut Clocks, place: u64, now: u64)
    ensures { clocks.new.items ≡ changed place (first_stamp now) clocks.old.items }
{
    if let Some(stamp) = clocks.get(place as usize) {
        if stamp.is_none() {
            clocks[place as usize] = Some(now);
        }
    }
}

/// A bucket gets a stamp, where it has none and is not before the cursor.
fn stamp_bucket(clocks: &mut Clocks, cursor: u64, bucket: u64, now: u64)
    ensures { clocks.new.items ≡ stamped_at cursor now clocks.old.items bucket }
{
    if let Some(place) = bucket.checked_sub(cursor) {
        stamp_place(clocks, place, now);
    }
}

/// Whether a time lies in the bucket that begins there.
fn lies_in(begin: Option<u64>, width: u64, time: u64) -> bool
    ensures { IsTrue result → LiesFrom begin width time }
{
    match begin {
        Some(begin) => begin <= time && time - begin < width,
        None => false,
    }
}

/// Tuples of these times came. Of those that lie in one bucket, one behind another, the first one counts.
pub fn stamp(clocks: &mut Clocks, width: u64, cursor: u64, times: &[u64], now: u64)
    requires { 0 < width }
    ensures { clocks.new.items ≡ stamped width cursor now clocks.old.items times.now }
{
    let mut begin = None;
    for time in times {
        if lies_in(begin, width, *time) {
            continue;
        }
        let bucket = *time / width;
        stamp_bucket(clocks, cursor, bucket, now);
        begin = Some(bucket * width);
    }
}

/// Whether the stamp of a place is there, and `delay` old or older.
fn waits(clocks: &Clocks, place: u64, delay: u64, now: u64) -> bool
    ensures { result ≡ waited_long (nth None clocks.now.items place) delay now }
{
    match clocks.get(place as usize) {
        Some(Some(at)) => *at <= now && now - *at >= delay,
        _ => false,
    }
}

/// The last of the places from `from` on and below `end` whose stamp is `delay` old or older.
pub fn last_waiting(clocks: &Clocks, from: u64, end: u64, delay: u64, now: u64) -> Option<u64>
    requires { end ≤ length clocks.now.items }
    ensures { result ≡ last_below (λ place. nat_le from place && waited_long (nth None clocks.now.items place) delay now) end }
{
    let mut end = end;
    while end > from {
        end -= 1;
        if waits(clocks, end, delay, now) {
            return Some(end);
        }
    }
    None
}

/// Lets the first places go.
pub fn drop_places(clocks: &mut Clocks, count: u64)
    ensures { clocks.new.items ≡ drop count clocks.old.items }
{
    let mut left = count;
    while left > 0 && !clocks.is_empty() {
        clocks.pop_front();
        left -= 1;
    }
}
