//! A batch to a port, and a subscription of a reader.
use crate::pipelines::{milled, row};
use dpc_lists::exact::Exact;
use dpc_lists::faults::NoMemory;
use dpc_lists::shared::Shared;
use dpc_model::messages::{Message, NodeState, Sess, Subscribe};
use dpc_model::tuples::Item;
use pipeline::pipeline::Pipeline;
use std::alloc::Global;
use std::test::Fail;
use sunion::sunion::Verdict;

/// What a batch of session 1 is to port 0, where there is that port.
fn taken(
    alloc: Global,
    pipeline: &mut Pipeline,
    index: u64,
    items: &Shared<Item>,
) -> Result<Option<Verdict>, NoMemory> {
    if pipeline.inputs().ports() == 0 {
        return Ok(None);
    }
    let sess = Sess { inc: 1, number: 1 };
    Ok(Some(pipeline.accept(alloc, 0, sess, index, items, 2)?))
}

/// What reader 0 is answered where it asks anew for the whole, where there is that reader.
fn opened(alloc: Global, pipeline: &mut Pipeline) -> Result<Option<Message>, NoMemory> {
    if pipeline.output().readers() == 0 {
        return Ok(None);
    }
    let asked = Subscribe {
        sess: Sess { inc: 1, number: 2 },
        n: 0,
        tentative: false,
    };
    pipeline.open_session(alloc, 0, asked, NodeState::Stable)
}

/// How many stable tuples of port 0 came, and how many of them are processed, where there is that port.
fn counted(pipeline: &Pipeline) -> (u64, u64) {
    if pipeline.inputs().ports() == 0 {
        return (0, 0);
    }
    (pipeline.count(0), pipeline.done(0))
}

/// Whether these are exactly those items.
fn are_items(items: &[Item], wanted: &[Item]) -> bool {
    items.len() == wanted.len()
        && items
            .iter()
            .zip(wanted)
            .all(|(item, other)| item.same(other))
}

/// Whether an answer is a first batch of exactly these items.
fn is_first(answer: Option<Message>, wanted: &[Item]) -> bool {
    let Some(Message::Batch(_, index, items)) = answer else {
        return false;
    };
    index == 0 && are_items(items.as_slice(), wanted)
}

#[test]
fn a_batch_is_taken_and_a_reader_answered(rt: HostRuntime) -> Result<(), Fail> {
    let alloc = rt.alloc();
    let (mut pipeline, _sends) = milled(alloc)?;
    let batch = Shared::from_vec(vec![in alloc;
        Item::Undo(1),
        Item::Stable(1, row(alloc, 15)?),
        Item::Boundary(20, 2),
    ]?)?;
    let verdict = taken(alloc, &mut pipeline, 1, &batch)?;
    assert!(rt; verdict == Some(Verdict::Used) && counted(&pipeline) == (2, 1));
    let wanted = [Item::Stable(0, row(alloc, 3)?), Item::Boundary(10, 1)];
    let answer = opened(alloc, &mut pipeline)?;
    assert!(rt; is_first(answer, &wanted));
    let view = pipeline.view(alloc)?;
    assert!(rt; are_items(view.as_slice(), &wanted));
    Ok(())
}
