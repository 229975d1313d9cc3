//! What no clause says: that calls succeed where there is memory. Values are counted by a person.
use dpc_lists::exact::Exact;
use dpc_lists::lists::Listed;
use dpc_model::tuples::{Item, Items, Tuple, Tuples, Vals};
use output_buffer::buffer::{FromFault, OutputBuffer};
use std::alloc::{AllocError, Global};
use std::test::Fail;

fn tuples(alloc: Global, times: &[u64]) -> Result<Tuples, AllocError> {
    let mut tuples = Vec::new(alloc);
    for stime in times {
        let vals = Vals::from_slice(alloc, &[1])?;
        tuples.push(Tuple {
            stime: *stime,
            vals,
        })?;
    }
    Ok(Listed::from_vec(tuples))
}

fn items(alloc: Global, first: u64, times: &[u64]) -> Result<Items, AllocError> {
    let mut items = Vec::new(alloc);
    let mut number = first;
    for tuple in tuples(alloc, times)?.into_vec() {
        items.push(Item::Stable(number, tuple))?;
        number = number.saturating_add(1);
    }
    Ok(Listed::from_vec(items))
}

/// Whether the buffer gives exactly these items from number `n` on.
fn gives(alloc: Global, buffer: &OutputBuffer, n: u64, wanted: &Items) -> bool {
    buffer.from(alloc, n).is_ok_and(|items| items.same(wanted))
}

#[test]
fn what_every_reader_acknowledged_goes(rt: HostRuntime) -> Result<(), Fail> {
    let alloc = rt.alloc();
    let mut buffer = OutputBuffer::new(alloc, 2)?;
    buffer.append(tuples(alloc, &[3, 5, 9])?)?;
    buffer.ack(0, 1, 2);
    assert_eq!(rt; buffer.base(), 0);
    buffer.ack(1, 1, 1);
    assert_eq!(rt; (buffer.base(), buffer.count()), (1, 3));
    assert!(rt; matches!(buffer.from(alloc, 0), Err(FromFault::Truncated { base: 1 })));
    assert!(rt; gives(alloc, &buffer, 1, &items(alloc, 1, &[5, 9])?));
    Ok(())
}

#[test]
fn a_buffer_starts_anew_behind_its_base(rt: HostRuntime) -> Result<(), Fail> {
    let alloc = rt.alloc();
    let kept = tuples(alloc, &[20, 21])?;
    let buffer = OutputBuffer::start_at(alloc, 1, 7, kept)?;
    assert_eq!(rt; (buffer.base(), buffer.count()), (7, 9));
    assert!(rt; gives(alloc, &buffer, 8, &items(alloc, 8, &[21])?));
    assert!(rt; gives(alloc, &buffer, 12, &items(alloc, 12, &[])?));
    Ok(())
}
