//! What no clause says: that calls succeed where there is memory. Values are counted by a person.
use dpc_lists::shared::Shared;
use dpc_model::messages::Sess;
use dpc_model::tuples::{Item, Tagged, Tuple, Vals};
use std::alloc::{AllocError, Global};
use std::test::Fail;
use sunion::sunion::{SUnion, Verdict};

fn tuple(alloc: Global, stime: u64, value: i64) -> Result<Tuple, AllocError> {
    let vals = Vals::from_slice(alloc, &[value])?;
    Ok(Tuple { stime, vals })
}

/// Takes a batch of session 1 of the first incarnation.
fn accept(
    alloc: Global,
    union: &mut SUnion,
    port: usize,
    index: u64,
    items: &Shared<Item>,
    now: u64,
) -> Result<Verdict, Fail> {
    if port >= union.ports() || union.inlet(port).count() >= 100 {
        Err("there is no room")?;
    }
    if union.inlet(port).next() >= 100 || items.len() >= 100 {
        Err("there is no room")?;
    }
    let sess = Sess { inc: 1, number: 1 };
    Ok(union.accept(alloc, port, sess, index, items, now)?)
}

fn bucket(alloc: Global, union: &SUnion, k: u64) -> Result<Vec<Tagged>, Fail> {
    if union.width() != 10 || k < union.cursor() || k >= 100 {
        Err("there is no such bucket")?;
    }
    Ok(union.bucket(alloc, k)?)
}

fn close(alloc: Global, union: &mut SUnion) -> Result<Vec<Tagged>, Fail> {
    if union.width() != 10 || union.cursor() >= 100 || union.closed() >= 100 {
        Err("there is no such bucket")?;
    }
    Ok(union.close(alloc)?)
}

fn advance(union: &mut SUnion, count: u64) -> Result<(), Fail> {
    if union.width() != 10 || union.cursor() >= 100 || count >= 100 || union.closed() != 0 {
        Err("there is no such bucket")?;
    }
    union.advance(count);
    Ok(())
}

/// How many stable tuples a port keeps.
fn kept(union: &SUnion, port: usize) -> usize {
    if port < union.ports() {
        union.inlet(port).kept().len()
    } else {
        0
    }
}

/// Whether the tuples have these times, ports and values.
fn is_bucket(tagged: &[Tagged], wanted: &[(u64, u64, i64)]) -> bool {
    if tagged.len() != wanted.len() {
        return false;
    }
    for (i, (time, port, value)) in wanted.iter().enumerate() {
        let found = &tagged[i];
        if found.tuple.stime != *time || found.port != *port {
            return false;
        }
        if found.tuple.vals.as_slice() != [*value].as_slice() {
            return false;
        }
    }
    true
}

#[test]
fn buckets_close_and_go(rt: HostRuntime) -> Result<(), Fail> {
    let alloc = rt.alloc();
    let mut union = SUnion::new(alloc, 2, 10, 40, 5, 1)?;
    let first = Shared::from_vec(vec![in alloc;
        Item::Stable(0, tuple(alloc, 3, 1)?),
        Item::Stable(1, tuple(alloc, 13, 2)?),
        Item::Boundary(20, 2),
    ]?)?;
    let second = Shared::from_vec(vec![in alloc;
        Item::Stable(0, tuple(alloc, 3, 3)?),
        Item::Boundary(10, 1),
        Item::Tentative(tuple(alloc, 15, 4)?),
        Item::Tentative(tuple(alloc, 13, 5)?),
        Item::Passed(20),
    ]?)?;
    assert!(rt; accept(alloc, &mut union, 0, 0, &first, 100)? == Verdict::Used);
    assert!(rt; accept(alloc, &mut union, 1, 0, &second, 103)? == Verdict::Used);
    assert!(rt; accept(alloc, &mut union, 1, 0, &second, 110)? == Verdict::Old);
    assert!(rt; accept(alloc, &mut union, 1, 3, &second, 110)? == Verdict::Broken);
    assert_eq!(rt; union.ready(), 1);
    assert_eq!(rt; (union.overdue(104), union.overdue(105)), (None, Some(1)));
    assert_eq!(rt; (union.due(104), union.due(105)), (Some(1), Some(1)));
    let zero = bucket(alloc, &union, 0)?;
    assert!(rt; is_bucket(zero.as_slice(), &[(3, 0, 1), (3, 1, 3)]));
    let closed = close(alloc, &mut union)?;
    assert!(rt; is_bucket(closed.as_slice(), &[(3, 0, 1), (3, 1, 3)]));
    assert_eq!(rt; (union.cursor(), union.closed()), (0, 1));
    union.undo();
    advance(&mut union, 1)?;
    assert_eq!(rt; (union.cursor(), kept(&union, 0)), (1, 1));
    let one = bucket(alloc, &union, 1)?;
    assert!(rt; is_bucket(one.as_slice(), &[(13, 0, 2), (13, 1, 5), (15, 1, 4)]));
    assert_eq!(rt;
        (union.ready(), union.due(0), union.overdue(105)),
        (0, Some(1), Some(1))
    );
    Ok(())
}

#[test]
fn it_starts_behind_a_snapshot(rt: HostRuntime) -> Result<(), Fail> {
    let alloc = rt.alloc();
    let union = SUnion::start_at(alloc, 10, 40, 5, 2, 3, &[4, 5])?;
    assert_eq!(rt; (union.cursor(), union.ready(), union.due(9)), (3, 0, None));
    assert_eq!(rt; (union.ports(), kept(&union, 1)), (2, 0));
    Ok(())
}
