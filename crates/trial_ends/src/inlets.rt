//! What no clause says: that calls succeed where there is memory. Values are counted by a person.
use dpc_lists::exact::Exact;
use dpc_lists::shared::Shared;
use dpc_model::batches::Taken;
use dpc_model::messages::{Sess, Subscribe};
use dpc_model::tuples::{Item, Tuple, Vals};
use inlet::inlet::{Absorbed, Inlet};
use std::alloc::{AllocError, Global};
use std::test::Fail;

fn sess(number: u64) -> Sess {
    Sess { inc: 1, number }
}

fn tuple(alloc: Global, stime: u64, value: i64) -> Result<Tuple, AllocError> {
    let vals = Vals::from_slice(alloc, &[value])?;
    Ok(Tuple { stime, vals })
}

/// Takes a batch of the first incarnation.
fn take(
    alloc: Global,
    inlet: &mut Inlet,
    session: u64,
    index: u64,
    items: &Shared<Item>,
) -> Result<Taken, Fail> {
    if inlet.count() >= 100 || inlet.next() >= 100 || items.len() >= 100 {
        Err("there is no room")?;
    }
    Ok(inlet.take(alloc, sess(session), index, items)?)
}

fn is_used(answer: &Taken, wanted: &Shared<Item>) -> bool {
    match answer {
        Taken::Used(items) => {
            let same = |(item, other): (&Item, &Item)| item.same(other);
            items.len() == wanted.len() && items.as_slice().iter().zip(wanted.as_slice()).all(same)
        }
        _ => false,
    }
}

#[test]
fn repeats_are_old(rt: HostRuntime) -> Result<(), Fail> {
    let alloc = rt.alloc();
    let items = Shared::from_vec(vec![in alloc;
        Item::Stable(0, tuple(alloc, 1, 7)?),
        Item::Boundary(5, 1),
    ]?)?;
    let undo = Shared::from_vec(vec![in alloc; Item::Undo(0)]?)?;
    let done = Shared::from_vec(vec![in alloc; Item::RecDone]?)?;
    let mut inlet = Inlet::new(alloc, 1);
    assert!(rt; is_used(&take(alloc, &mut inlet, 1, 0, &items)?, &items));
    for _ in 0..3 {
        assert!(rt; matches!(take(alloc, &mut inlet, 1, 0, &items)?, Taken::Old));
        assert_eq!(rt; (inlet.count(), inlet.bound()), (1, 5));
    }
    assert!(rt; matches!(take(alloc, &mut inlet, 0, 0, &undo)?, Taken::Old));
    assert!(rt; matches!(take(alloc, &mut inlet, 1, 2, &done)?, Taken::Broken));
    assert!(rt; matches!(take(alloc, &mut inlet, 1, 1, &done)?, Taken::Broken));
    assert_eq!(rt; (inlet.count(), inlet.bound()), (1, 5));
    assert_eq!(rt; inlet.sess().number, 1);
    let wanted = Subscribe {
        sess: sess(2),
        n: 1,
        tentative: false,
    };
    assert!(rt; inlet.reopen() == wanted);
    Ok(())
}

#[test]
fn a_lagging_replica_adds_nothing(rt: HostRuntime) -> Result<(), Fail> {
    let alloc = rt.alloc();
    let first = Shared::from_vec(vec![in alloc;
        Item::Boundary(10, 2),
        Item::Tentative(tuple(alloc, 15, 1)?),
        Item::Tentative(tuple(alloc, 25, 2)?),
    ]?)?;
    let last = Shared::from_vec(vec![in alloc; Item::Tentative(tuple(alloc, 25, 2)?)]?)?;
    let second = Shared::from_vec(vec![in alloc;
        Item::Undo(2),
        Item::Stable(2, tuple(alloc, 16, 3)?),
    ]?)?;
    let undo = Shared::from_vec(vec![in alloc; Item::Undo(2)]?)?;
    let mut inlet = Inlet::start_at(alloc, sess(1), 3, 20);
    assert_eq!(rt; inlet.sess().number, 1);
    inlet.reopen();
    assert!(rt; is_used(&take(alloc, &mut inlet, 2, 0, &first)?, &last));
    assert!(rt; is_used(&take(alloc, &mut inlet, 2, 1, &second)?, &undo));
    assert_eq!(rt;
        (inlet.count(), inlet.bound(), inlet.unsure()),
        (3, 20, false)
    );
    Ok(())
}

#[test]
fn absorbing_tells_the_times(rt: HostRuntime) -> Result<(), Fail> {
    let alloc = rt.alloc();
    let items = Shared::from_vec(vec![in alloc;
        Item::Stable(0, tuple(alloc, 4, 1)?),
        Item::Boundary(5, 1),
        Item::Tentative(tuple(alloc, 9, 2)?),
    ]?)?;
    let mut inlet = Inlet::new(alloc, 1);
    match inlet.absorb(alloc, sess(1), 0, &items)? {
        Absorbed::Used(times) => assert_eq!(rt; times.as_slice(), [4, 9].as_slice()),
        _ => assert!(rt; false, "nothing was absorbed"),
    }
    Ok(())
}
