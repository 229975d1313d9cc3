//! A replica that reads two others and has one beside it, by hand.
ghost use Rattle.std.specs.Prelude.{◌≡◌, [], ◌∷◌, length, IfOk};
ghost use Rattle.dpc_model.specs.Actors.{replicas_of, senders_of};
ghost use Rattle.dpc_model.specs.declared.plans.StreamRef.TheVariants.{Frag};
ghost use Rattle.node_model.specs.Nodes.{spec_of, streams_of};

use dpc_lists::faults::NoMemory;
use dpc_lists::lists::Listed;
use dpc_model::messages::{Beat, NodeState};
use dpc_model::plans::{FragSpec, Plan, StreamRef};
use node_links::links::{Asked, Links};
use std::alloc::{AllocError, Global};
use std::test::Fail;

/// A fragment of two replicas.
fn fragment(alloc: Global, inputs: Vec<StreamRef>) -> Result<FragSpec, AllocError>
    ensures replicas { IfOk result (λ f. f.replicas ≡ 2) }
    ensures inputs { IfOk result (λ f. f.inputs ≡ inputs.items) }
{
    Ok(FragSpec {
        name: Listed::from_vec(Vec::new(alloc)),
        replicas: 2,
        delay: None,
        inputs: Listed::from_vec(inputs),
        ops: Listed::from_vec(Vec::new(alloc)),
    })
}

/// Actors 0 and 1 are the replicas of the first fragment, 2 and 3 those of the second, which reads it.
fn plan(alloc: Global) -> Result<Plan, AllocError>
    ensures replicas { IfOk result (λ p. replicas_of p 1 ≡ 2 ∷ 3 ∷ []) }
    ensures senders { IfOk result (λ p. senders_of p (Frag 0) ≡ 0 ∷ 1 ∷ []) }
    ensures same { IfOk result (λ p. (spec_of (record { plan = p; frag = 1; replica = 0 })).replicas ≡ 2) }
    ensures streams { IfOk result (λ p. streams_of (record { plan = p; frag = 1; replica = 0 }) ≡ Frag 0 ∷ []) }
{
    let first = fragment(alloc, Vec::new(alloc))?;
    let second = fragment(alloc, vec![in alloc; StreamRef::Frag(0)]?)?;
    Ok(Plan {
        version: 1,
        passing: true,
        width: 10,
        delay: 20,
        end: 20,
        sources: Listed::from_vec(Vec::new(alloc)),
        frags: Listed::from_vec(vec![in alloc; first, second]?),
        clients: Listed::from_vec(Vec::new(alloc)),
    })
}

/// The links of the second fragment's first replica.
fn links(alloc: Global) -> Result<Links, NoMemory>
    ensures ports { IfOk result (λ l. length l.known.upstreams ≡ 1) }
    ensures replicas { IfOk result (λ l. length l.replicas ≡ 2) }
    ensures over { IfOk result (λ l. l.known.grants.over ≡ 0) }
{
    Links::new(alloc, &plan(alloc)?, 1, 0, 1)
}

/// What a replica tells that is STABLE.
fn stable() -> Beat {
    Beat {
        inc: 1,
        state: NodeState::Stable,
        recovering: false,
        over: 0,
        tally: None,
    }
}

#[test]
fn actors_are_found(rt: HostRuntime) -> Result<(), Fail> {
    let links = links(rt.alloc())?;
    assert!(rt; links.sender(1) == Some((0, 1)) && links.sender(2).is_none());
    assert!(rt; links.replica(3) == Some(1) && links.replica(1).is_none());
    assert!(rt; links.peers() == [3].as_slice());
    Ok(())
}

#[test]
fn a_promise_ends_with_silence(rt: HostRuntime) -> Result<(), Fail> {
    let mut links = links(rt.alloc())?;
    assert!(rt; links.on_ask(1, 1, 1, NodeState::UpFailure));
    assert!(rt; links.ask().is_none());
    links.tick();
    links.tick();
    links.tick();
    assert!(rt; links.ask() == Some(Asked::Enter));
    Ok(())
}

#[test]
fn a_silent_replica_is_left(rt: HostRuntime) -> Result<(), Fail> {
    let mut links = links(rt.alloc())?;
    links.tick();
    links.tick();
    links.tick();
    assert!(rt; links.on_beat(1, stable()).is_none());
    assert!(rt; links.ports() == 1 && links.choose(0, false, true) == Some(1));
    assert!(rt; links.on_beat(1, stable()) == Some(0));
    Ok(())
}
