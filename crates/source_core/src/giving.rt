//! What a source sends.
ghost use Rattle.std.specs.Prelude.{◌≡◌, ◌≤◌, ℕ, not, map, zip, length, IfOk};
ghost use Rattle.dpc_lists.specs.Lists.{nth};
ghost use Rattle.dpc_model.specs.Sessions.{given_items, batches_of, tally_of};
ghost use Rattle.dpc_model.specs.declared.sessions.Sub.{Sub};
ghost use Rattle.node_model.specs.Mails.{mail, mails, to_readers};
ghost use Rattle.node_model.specs.Sources.{source_beat};
ghost use Rattle.source_core.specs.Emitting.{given_upto, is_nothing};

use actor_lists::lists::actor_at;
use dpc_lists::faults::NoMemory;
use dpc_model::messages::{Beat, Message, NodeState, Out, Sess};
use dpc_model::sessions::Sub;
use dpc_model::tuples::{Item, Tuple};
use soutput::batches::{Sends, any_open, batches};
use soutput::items::{push_boundary, push_stable};
use std::alloc::{AllocError, Global};

/// The items of the logged tuples from `first` on and below `upto`, and of a boundary.
fn items_upto(
    alloc: Global,
    log: &[Tuple],
    first: usize,
    upto: usize,
    boundary: Option<(u64, u64)>,
) -> Result<Vec<Item>, AllocError>
    requires up { first ≤ upto }
    requires within { upto ≤ length log.now }
    ensures { IfOk result (λ items. items.items ≡ given_items first (given_upto log.now first upto boundary)) }
{
    let tuples = &log[first..upto];
    let mut items = Vec::with_capacity(alloc, tuples.len() + 1)?;
    push_stable(alloc, &mut items, first as u64, tuples)?;
    push_boundary(&mut items, boundary)?;
    Ok(items)
}

/// Whether there is such an item.
pub(crate) fn gives_items(first: usize, upto: usize, boundary: Option<(u64, u64)>) -> bool
    ensures { result ≡ not (is_nothing first upto boundary) }
{
    first < upto || boundary.is_some()
}

/// These items in one batch to each open session. Where none is open, no item is made.
pub(crate) fn batches_upto(
    alloc: Global,
    log: &[Tuple],
    first: usize,
    upto: usize,
    boundary: Option<(u64, u64)>,
    sessions: &[Sub],
) -> Result<Sends, NoMemory>
    requires up { first ≤ upto }
    requires within { upto ≤ length log.now }
    ensures { IfOk result (λ sends. sends.items ≡ batches_of (given_items first (given_upto log.now first upto boundary)) sessions.now) }
{
    if !any_open(sessions) {
        return Ok(Vec::new(alloc));
    }
    let items = items_upto(alloc, log, first, upto, boundary)?;
    batches(alloc, items, sessions)
}

/// Messages to the readers by their numbers as actors.
pub(crate) fn addressed(
    alloc: Global,
    readers: &[u64],
    sends: Sends,
) -> Result<Vec<Out>, AllocError>
    ensures { IfOk result (λ outs. mails outs.items ≡ to_readers readers.now sends.items) }
{
    let mut outs = Vec::with_capacity(alloc, sends.len())?;
    for (reader, message) in sends {
        let to = actor_at(readers, reader);
        outs.push(Out { to, message })?;
    }
    Ok(outs)
}

/// What a source tells of itself.
fn beat(tally: Option<(Sess, u64)>) -> Message
    ensures { result ≡ source_beat tally }
{
    Message::Beat(Beat {
        inc: 1,
        state: NodeState::Stable,
        recovering: false,
        over: 0,
        tally,
    })
}

/// Each reader is told its session.
pub(crate) fn beats(
    alloc: Global,
    readers: &[u64],
    sessions: &[Sub],
) -> Result<Vec<Out>, AllocError>
    requires { length sessions.now ≡ length readers.now }
    ensures { IfOk result (λ outs. mails outs.items ≡ map (λ (y : ℕ
        × Sub). mail y.0 (source_beat (tally_of y.1))) (zip readers.now sessions.now)) }
{
    let mut outs = Vec::with_capacity(alloc, readers.len())?;
    for (reader, to) in readers.iter().enumerate() {
        let message = beat(sessions[reader].tally());
        outs.push(Out { to: *to, message })?;
    }
    Ok(outs)
}
