//! What no clause says: that words are read where there is memory.
use script_words::expressions::read_expressions;
use script_words::operands::{read_aggs, read_pairs, read_values};
use script_words::words::Words;
use std::test::Fail;

#[test]
fn operands_are_read(rt: HostRuntime) -> Result<(), Fail> {
    let values = read_values(rt.alloc(), Words::of(b"3 -4 0"))?;
    assert_eq!(rt; values.len(), 3);
    let expressions = read_expressions(rt.alloc(), Words::of(b"add c0 neg 1 time"))?;
    assert_eq!(rt; expressions.len(), 2);
    let aggs = read_aggs(rt.alloc(), Words::of(b"count sum c1 max c0"))?;
    assert_eq!(rt; aggs.len(), 3);
    let pairs = read_pairs(rt.alloc(), Words::of(b"0 1  2 3"))?;
    assert_eq!(rt; pairs.map(|p| p.len()), Some(2));
    Ok(())
}
