//! The sessions of all readers, and a batch to each.
ghost use Rattle.std.specs.Prelude.{◌≡◌, ◌+◌, ◌^◌, ◌<◌, ◌++◌, true, nat_lt, map, IfOk, OnOk};
ghost use Rattle.dpc_lists.specs.Lists.{list_all, list_any};
ghost use Rattle.dpc_model.specs.Sessions.{opening_session, with_batch, with_session_shut, tally_of, batches_of};
ghost use Rattle.dpc_model.specs.declared.sessions.Sub.{Sub};
ghost use Rattle.soutput.specs.Giving.{batch_to};

use dpc_lists::faults::NoMemory;
use dpc_lists::shared::Shared;
use dpc_model::messages::Message;
use dpc_model::sessions::Sub;
use dpc_model::tuples::Item;
use std::alloc::Global;

/// Messages to readers, by their place among the readers.
pub type Sends = Vec<(u64, Message)>;

/// Whether some session is open.
pub fn any_open(sessions: &[Sub]) -> bool
    ensures { result ≡ list_any (λ (s : Sub). s.is_open) sessions.now }
{
    sessions.iter().any(|session| session.is_open)
}

/// Appends a batch of these items to a reader, where its session is open.
fn push_batch(
    sends: &mut Sends,
    reader: usize,
    session: &Sub,
    items: &Shared<Item>,
) -> Result<(), NoMemory>
    ensures { OnOk result (sends.new.items ≡ sends.old.items ++ batch_to reader items.now (tally_of session.now)) }
{
    if let Some((sess, index)) = session.tally() {
        let batch = Message::Batch(sess, index, items.share()?);
        sends.push((reader as u64, batch))?;
    }
    Ok(())
}

/// One batch of these items to each open session. They are made once, and shared.
pub fn batches(alloc: Global, items: Vec<Item>, sessions: &[Sub]) -> Result<Sends, NoMemory>
    ensures { IfOk result (λ sends. sends.items ≡ batches_of items.items sessions.now) }
{
    let mut sends = Vec::new(alloc);
    if items.is_empty() {
        return Ok(sends);
    }
    let items = Shared::from_vec(items)?;
    for (reader, session) in sessions.iter().enumerate() {
        push_batch(&mut sends, reader, session, &items)?;
    }
    Ok(sends)
}

/// Whether each session can count one batch more.
pub fn can_count(sessions: &[Sub]) -> bool
    ensures { result ≡ list_all (λ (s : Sub). nat_lt (s.batches + 1) (2 ^ 64)) sessions.now }
{
    sessions.iter().all(|session| session.batches < u64::MAX)
}

/// Counts one batch more in each open session.
pub fn count_batches(sessions: &mut [Sub])
    requires { list_all (λ (s : Sub). nat_lt (s.batches + 1) (2 ^ 64)) sessions.old ≡ true }
    ensures { sessions.new ≡ map with_batch sessions.old }
{
    for session in sessions.iter_mut() {
        session.count_batch();
    }
}

/// Opens each session as it is at the opening.
pub fn open_all(sessions: &mut [Sub])
    ensures { sessions.new ≡ map (λ _. opening_session) sessions.old }
{
    for session in sessions.iter_mut() {
        *session = Sub::opening();
    }
}

/// No session is open any more.
pub fn shut_all(sessions: &mut [Sub])
    ensures { sessions.new ≡ map with_session_shut sessions.old }
{
    for session in sessions.iter_mut() {
        session.is_open = false;
        session.batches = 0;
    }
}
