//! What no clause says: that steps are answered where there is memory, with items that are counted by hand.
use crate::pair::Pair;
use dpc_lists::exact::are_same;
use dpc_model::tuples::{Item, Tuple, Vals};
use std::alloc::{AllocError, Global};
use std::test::Fail;

/// A tuple of this time.
fn tuple(alloc: Global, stime: u64) -> Result<Tuple, AllocError> {
    let vals = Vals::from_slice(alloc, &[7])?;
    Ok(Tuple { stime, vals })
}

/// Tentative tuples of these times.
fn tentatives(alloc: Global, times: &[u64]) -> Result<Vec<Item>, AllocError> {
    let mut items = Vec::new(alloc);
    for time in times {
        items.push(Item::Tentative(tuple(alloc, *time)?))?;
    }
    Ok(items)
}

/// Corrections up to time 10, with one tuple, and what comes behind them.
fn corrections(alloc: Global, last: Item) -> Result<Vec<Item>, AllocError> {
    let first = tuple(alloc, 3)?;
    Ok(vec![in alloc;
        Item::Undo(0),
        Item::Stable(0, first),
        Item::Boundary(10, 1),
        last,
    ]?)
}

/// Whether a step tells these items.
fn tells(pair: &mut Pair, first: &[Item], second: &[Item], wanted: &[Item]) -> bool {
    match pair.step(first, second) {
        Ok(items) => are_same(items.as_slice(), wanted),
        Err(_) => false,
    }
}

/// Both readers bring the same tentative tuples, in turn; then the second one brings corrections.
#[test]
fn corrections_come_from_whichever_has_them(rt: HostRuntime) -> Result<(), Fail> {
    let alloc = rt.alloc();
    let mut pair = Pair::new(alloc);
    let some = tentatives(alloc, &[3, 12])?;
    assert!(rt; tells(&mut pair, some.as_slice(), &[], some.as_slice()));
    let more = tentatives(alloc, &[3, 12, 14])?;
    let last = tentatives(alloc, &[14])?;
    assert!(rt; tells(&mut pair, &[], more.as_slice(), last.as_slice()));
    let taken = corrections(alloc, Item::RecDone)?;
    let told = corrections(alloc, Item::Tentative(tuple(alloc, 12)?))?;
    assert!(rt; tells(&mut pair, &[], taken.as_slice(), told.as_slice()));
    Ok(())
}

/// Where both go as far, the first reader's tentative tuples are told.
#[test]
fn the_first_reader_is_preferred(rt: HostRuntime) -> Result<(), Fail> {
    let alloc = rt.alloc();
    let mut pair = Pair::new(alloc);
    let short = tentatives(alloc, &[12])?;
    let long = tentatives(alloc, &[3, 12])?;
    assert!(rt;
        tells(
            &mut pair,
            short.as_slice(),
            long.as_slice(),
            short.as_slice()
        )
    );
    assert!(rt; tells(&mut pair, &[], &[], &[]));
    Ok(())
}
