//! What no clause says: that calls succeed where there is memory. Values are counted by a person.
use dpc_lists::exact::Exact;
use dpc_lists::faults::NoMemory;
use dpc_lists::lists::Listed;
use dpc_model::messages::{Message, NodeState, Sess, Subscribe};
use dpc_model::tuples::{Item, Tuple, Tuples, Vals};
use soutput::batches::Sends;
use soutput::fresh::Fresh;
use soutput::output::SOutput;
use std::alloc::{AllocError, Global};
use std::test::Fail;

const FIRST: Sess = Sess { inc: 1, number: 1 };

fn tuple(alloc: Global, stime: u64) -> Result<Tuple, AllocError> {
    let vals = Vals::from_slice(alloc, &[7])?;
    Ok(Tuple { stime, vals })
}

fn tuples(alloc: Global, times: &[u64]) -> Result<Tuples, AllocError> {
    let mut tuples = Vec::new(alloc);
    for stime in times {
        tuples.push(tuple(alloc, *stime)?)?;
    }
    Ok(Listed::from_vec(tuples))
}

fn asked(n: u64, tentative: bool) -> Subscribe {
    Subscribe {
        sess: FIRST,
        n,
        tentative,
    }
}

/// Whether these are exactly those items.
fn are_items(items: &[Item], wanted: &[Item]) -> bool {
    items.len() == wanted.len()
        && items
            .iter()
            .zip(wanted)
            .all(|(item, other)| item.same(other))
}

/// Whether a message is the batch of this number in the first session, with exactly these items.
fn is_batch(message: &Message, number: u64, wanted: &[Item]) -> bool {
    let Message::Batch(sess, index, items) = message else {
        return false;
    };
    *sess == FIRST && *index == number && are_items(items.as_slice(), wanted)
}

/// Whether so many batches of these items went to readers 0, 1, .., by these numbers.
fn are_batches(sends: &Sends, numbers: &[u64], wanted: &[Item]) -> bool {
    sends.len() == numbers.len()
        && sends
            .iter()
            .zip(numbers)
            .all(|(send, number)| is_batch(&send.1, *number, wanted))
}

/// What a reader's subscription is answered by, where there is such a reader.
fn opened(
    alloc: Global,
    output: &mut SOutput,
    reader: usize,
    asked: Subscribe,
    state: NodeState,
) -> Result<Option<Message>, NoMemory> {
    if reader >= output.readers() {
        return Ok(None);
    }
    output.open_session(alloc, reader, asked, state)
}

/// What stable tuples are given by.
fn stable(
    alloc: Global,
    output: &mut SOutput,
    tuples: Tuples,
    bound: u64,
) -> Result<Option<Sends>, NoMemory> {
    if !output.has_room(tuples.len()) {
        return Ok(None);
    }
    Ok(Some(output.stable(alloc, tuples, bound)?))
}

/// What is said by a call that appends nothing stable.
#[derive(Drop)]
enum Saying {
    Tentative(Tuples),
    Fresh(Fresh),
    Undo,
    RecDone,
}

fn said(alloc: Global, output: &mut SOutput, saying: Saying) -> Result<Option<Sends>, NoMemory> {
    if !output.has_room(0) {
        return Ok(None);
    }
    Ok(Some(match saying {
        Saying::Tentative(tuples) => output.tentative(alloc, tuples)?,
        Saying::Undo => output.undo(alloc)?,
        Saying::RecDone => output.rec_done(alloc)?,
        Saying::Fresh(new) => {
            if !output.has_room(new.stable.len()) {
                return Ok(None);
            }
            output.give(alloc, new)?
        }
    }))
}

/// An output that gave one stable tuple of time 3 up to 10, with an open session of reader 0.
fn begun(alloc: Global) -> Result<SOutput, Fail> {
    let mut output = SOutput::new(alloc, 2)?;
    opened(alloc, &mut output, 0, asked(0, false), NodeState::Stable)?;
    stable(alloc, &mut output, tuples(alloc, &[3])?, 10)?;
    Ok(output)
}

#[test]
fn an_open_session_gets_what_is_stable(rt: HostRuntime) -> Result<(), Fail> {
    let alloc = rt.alloc();
    let mut output = SOutput::new(alloc, 2)?;
    let first = opened(alloc, &mut output, 0, asked(0, false), NodeState::Stable)?;
    assert!(rt; first.is_some_and(|batch| is_batch(&batch, 0, &[])));
    let wanted = [Item::Stable(0, tuple(alloc, 3)?), Item::Boundary(10, 1)];
    let sends = stable(alloc, &mut output, tuples(alloc, &[3])?, 10)?;
    assert!(rt; sends.is_some_and(|sends| are_batches(&sends, &[1], &wanted)));
    Ok(())
}

#[test]
fn tentative_output_is_shown_and_undone(rt: HostRuntime) -> Result<(), Fail> {
    let alloc = rt.alloc();
    let mut output = begun(alloc)?;
    let fresh = Fresh {
        stable: tuples(alloc, &[])?,
        bound: None,
        tentative: tuples(alloc, &[15])?,
        passed: Some(20),
        done: false,
    };
    let sends = said(alloc, &mut output, Saying::Fresh(fresh))?;
    let wanted = [Item::Tentative(tuple(alloc, 15)?), Item::Passed(20)];
    assert!(rt; sends.is_some_and(|sends| are_batches(&sends, &[2], &wanted)));
    let shown = [
        Item::Undo(0),
        Item::Stable(0, tuple(alloc, 3)?),
        Item::Boundary(10, 1),
        Item::Tentative(tuple(alloc, 15)?),
        Item::Passed(20),
    ];
    let first = opened(alloc, &mut output, 1, asked(0, true), NodeState::UpFailure)?;
    assert!(rt; first.is_some_and(|batch| is_batch(&batch, 0, &shown)));
    let sends = said(alloc, &mut output, Saying::Undo)?;
    assert!(rt; sends.is_some_and(|sends| are_batches(&sends, &[3, 1], &[Item::Undo(1)])));
    assert!(rt; output.tentatives().is_empty());
    Ok(())
}

#[test]
fn each_batch_has_the_next_number(rt: HostRuntime) -> Result<(), Fail> {
    let alloc = rt.alloc();
    let mut output = begun(alloc)?;
    let sends = said(alloc, &mut output, Saying::RecDone)?;
    assert!(rt; sends.is_some_and(|sends| are_batches(&sends, &[2], &[Item::RecDone])));
    let sends = said(alloc, &mut output, Saying::Tentative(tuples(alloc, &[17])?))?;
    let wanted = [Item::Tentative(tuple(alloc, 17)?)];
    assert!(rt; sends.is_some_and(|sends| are_batches(&sends, &[3], &wanted)));
    Ok(())
}

#[test]
fn tuples_that_are_gone_are_not_sent(rt: HostRuntime) -> Result<(), Fail> {
    let alloc = rt.alloc();
    let mut output = SOutput::start_at(alloc, 1, 2, tuples(alloc, &[20, 21])?, 30)?;
    let answer = opened(alloc, &mut output, 0, asked(1, false), NodeState::Stable)?;
    assert!(rt; matches!(answer, Some(Message::Truncated(sess, 2)) if sess == FIRST));
    assert!(rt; output.readers() == 1);
    assert!(rt; output.newest(0) == Some(FIRST) && output.tally(0).is_none());
    Ok(())
}

#[test]
fn a_view_has_all_that_is_kept(rt: HostRuntime) -> Result<(), Fail> {
    let alloc = rt.alloc();
    let output = SOutput::start_at(alloc, 1, 2, tuples(alloc, &[20, 21])?, 30)?;
    let view = output.view(alloc)?;
    let wanted = [
        Item::Stable(2, tuple(alloc, 20)?),
        Item::Stable(3, tuple(alloc, 21)?),
        Item::Boundary(30, 4),
    ];
    assert!(rt; are_items(view.as_slice(), &wanted));
    Ok(())
}
