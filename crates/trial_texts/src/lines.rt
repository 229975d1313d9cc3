//! What no clause says: the text as the format's description shows it.
use dpc_lists::lists::Listed;
use dpc_model::tuples::{Item, Tuple, Vals};
use report::text::{Summary, put_client};
use std::alloc::{AllocError, Global};
use std::test::Fail;

fn tuple(alloc: Global, stime: u64, first: i64, second: i64) -> Result<Tuple, AllocError> {
    let vals = Vals::from_slice(alloc, &[first, second])?;
    Ok(Tuple { stime, vals })
}

#[test]
fn every_item_has_its_line(rt: HostRuntime) -> Result<(), Fail> {
    let alloc = rt.alloc();
    let mut items = Vec::new(alloc);
    items.push(Item::Stable(0, tuple(alloc, 3, 5, -7)?))?;
    items.push(Item::Boundary(10, 1))?;
    items.push(Item::Tentative(tuple(alloc, 11, 0, i64::MIN)?))?;
    items.push(Item::Passed(20))?;
    items.push(Item::Undo(1))?;
    items.push(Item::RecDone)?;
    let summary = Summary {
        stable: 1,
        bound: 10,
        tentative: 0,
        settled: false,
    };
    let mut text = Vec::new(alloc);
    assert!(rt; put_client(&mut text, b"c_1", items.as_slice(), &summary).is_ok());
    let wanted = "client c_1
stable 0 3 5 -7
boundary 10 1
tentative 11 0 -9223372036854775808
passed 20
undo 1
rec_done
summary c_1 stable 1 bound 10 tentative 0 open
";
    assert_eq!(rt; text.as_slice(), wanted.as_bytes());
    Ok(())
}
