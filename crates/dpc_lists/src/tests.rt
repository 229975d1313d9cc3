//! What no clause says: that lists grow where there is memory.
use crate::exact::Exact;
use crate::inlined::Inlined;
use crate::vals::Vals;
use std::cmp::Ordering;
use std::test::Fail;

#[test]
fn values_in_memory_are_as_those_in_a_tuple(rt: HostRuntime) -> Result<(), Fail> {
    let alloc = rt.alloc();
    let few = Vals::from_slice(alloc, &[1, 2, 3, 4, 5])?;
    let mut many = Vals::with_capacity(alloc, 6)?;
    many.extend_from_slice(few.as_slice())?;
    assert!(rt; many.same(&few));
    many.push(-6)?;
    assert_eq!(rt; many.len(), 6);
    assert!(rt; many.copy(alloc)?.same(&many) && !many.same(&few));
    let mut moved = few.copy(alloc)?;
    moved.push(-6)?;
    assert!(rt; moved.same(&many));
    Ok(())
}

#[test]
fn keys_in_memory_are_as_those_in_themselves(rt: HostRuntime) -> Result<(), Fail> {
    let alloc = rt.alloc();
    let few: Inlined<i64, 2> = Inlined::from_slice(alloc, &[1, 2])?;
    let mut many: Inlined<i64, 2> = Inlined::with_capacity(alloc, 3)?;
    many.extend_from_slice(few.as_slice())?;
    assert!(rt; many == few && many.same(&few));
    many.push(-6)?;
    assert_eq!(rt; many.len(), 3);
    assert!(rt; few < many && few.cmp(&many) == Ordering::Less);
    Ok(())
}
