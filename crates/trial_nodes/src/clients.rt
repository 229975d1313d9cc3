//! A client of a source, by hand.
ghost use Rattle.std.specs.Prelude.{◌≡◌, [], ◌∷◌, length, IfOk};
ghost use Rattle.dpc_model.specs.Actors.{senders_of};
ghost use Rattle.node_model.specs.Clients.{client_stream};

use client_fold::client::Client;
use dpc_lists::faults::NoMemory;
use dpc_lists::lists::Listed;
use dpc_lists::shared::Shared;
use dpc_model::messages::{Message, Out, Sess, Subscribe};
use dpc_model::plans::{ClientSpec, Plan, SourceSpec, StreamRef};
use dpc_model::tuples::{Item, Tuple, Vals};
use std::alloc::{AllocError, Global};
use std::test::Fail;

/// A source, actor 0, and its client, actor 1.
fn plan(alloc: Global) -> Result<Plan, AllocError>
    ensures one { IfOk result (λ p. length p.clients ≡ 1) }
    ensures senders { IfOk result (λ p. senders_of p (client_stream p 0) ≡ 0 ∷ []) }
{
    let source = SourceSpec {
        name: Listed::from_vec(Vec::new(alloc)),
        columns: 1,
        log: Listed::from_vec(Vec::new(alloc)),
    };
    let client = ClientSpec {
        name: Listed::from_vec(Vec::new(alloc)),
        input: StreamRef::Source(0),
    };
    Ok(Plan {
        version: 1,
        passing: true,
        width: 10,
        delay: 20,
        end: 10,
        sources: Listed::from_vec(vec![in alloc; source]?),
        frags: Listed::from_vec(Vec::new(alloc)),
        clients: Listed::from_vec(vec![in alloc; client]?),
    })
}

fn client(alloc: Global) -> Result<Client, NoMemory> {
    Client::new(alloc, &plan(alloc)?, 0)
}

fn tuple(alloc: Global, stime: u64, value: i64) -> Result<Tuple, AllocError> {
    let vals = Vals::from_slice(alloc, &[value])?;
    Ok(Tuple { stime, vals })
}

/// The source sends a batch of the first session.
fn deliver(alloc: Global, client: &mut Client, index: u64, items: Vec<Item>) -> Result<(), Fail> {
    let items = Shared::from_vec(items)?;
    let sess = Sess { inc: 1, number: 1 };
    Ok(client.deliver(alloc, 0, &Message::Batch(sess, index, items))?)
}

fn tick(alloc: Global, client: &mut Client, now: u64) -> Result<Vec<Out>, Fail> {
    Ok(client.tick(alloc, now)?)
}

/// How many stable tuples there were, up to where they go, how many tentative ones there are, and
/// whether the stream was taken.
fn state(client: &Client) -> (u64, u64, usize, bool) {
    (
        client.count(),
        client.bound(),
        client.tentatives(),
        client.settled(),
    )
}

fn is_ack(out: &Out, count: u64) -> bool {
    match out.message {
        Message::Ack(kind, acked) => out.to == 0 && (kind, acked) == (1, count),
        _ => false,
    }
}

fn asks(out: &Out, wanted: Subscribe) -> bool {
    match out.message {
        Message::Subscribe(asked) => out.to == 0 && asked == wanted,
        _ => false,
    }
}

#[test]
fn a_stream_is_taken(rt: HostRuntime) -> Result<(), Fail> {
    let alloc = rt.alloc();
    let first = vec![in alloc;
        Item::Stable(0, tuple(alloc, 1, 7)?),
        Item::Boundary(5, 1),
        Item::Tentative(tuple(alloc, 6, 9)?),
    ]?;
    let late = vec![in alloc; Item::Undo(1)]?;
    let second = vec![in alloc;
        Item::Undo(1),
        Item::Stable(0, tuple(alloc, 1, 7)?),
        Item::Stable(1, tuple(alloc, 6, 8)?),
        Item::Boundary(10, 2),
    ]?;
    let mut client = client(alloc)?;
    deliver(alloc, &mut client, 0, first)?;
    assert_eq!(rt; state(&client), (1, 5, 1, false));
    deliver(alloc, &mut client, 0, late)?;
    assert_eq!(rt; state(&client), (1, 5, 1, false));
    deliver(alloc, &mut client, 1, second)?;
    assert_eq!(rt; state(&client), (2, 10, 0, true));
    let taken: &[Shared<Item>] = client.taken();
    assert!(rt; taken.len() == 2 && taken[0].len() == 3 && taken[1].len() == 3);
    let outs = tick(alloc, &mut client, 1)?;
    assert!(rt; outs.len() == 1 && is_ack(&outs[0], 2));
    Ok(())
}

#[test]
fn a_missing_batch_asks_anew(rt: HostRuntime) -> Result<(), Fail> {
    let alloc = rt.alloc();
    let mut client = client(alloc)?;
    deliver(alloc, &mut client, 1, vec![in alloc; Item::RecDone]?)?;
    let wanted = Subscribe {
        sess: Sess { inc: 1, number: 2 },
        n: 0,
        tentative: false,
    };
    let outs = tick(alloc, &mut client, 1)?;
    assert!(rt; outs.len() == 2 && asks(&outs[0], wanted) && is_ack(&outs[1], 0));
    let outs = tick(alloc, &mut client, 2)?;
    assert!(rt; outs.len() == 1 && client.taken().is_empty());
    Ok(())
}
