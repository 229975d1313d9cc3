//! Two replicas of one fragment, by hand.
ghost use Rattle.std.specs.Prelude.{◌≡◌, [], ◌∷◌, IfOk};
ghost use Rattle.dpc_model.specs.Actors.{senders_of};
ghost use Rattle.dpc_model.specs.declared.plans.StreamRef.TheVariants.{Frag};
ghost use Rattle.upstream.specs.Upstreams.{new_upstream};

use dpc_lists::faults::NoMemory;
use dpc_lists::lists::Listed;
use dpc_model::messages::{Beat, NodeState};
use dpc_model::plans::{FragSpec, Plan, SourceSpec, StreamRef};
use std::alloc::{AllocError, Global};
use std::test::Fail;
use upstream::upstream::Upstream;

/// A source, actor 0, and a fragment with the replicas 1 and 2.
fn plan(alloc: Global) -> Result<Plan, AllocError>
    ensures { IfOk result (λ p. senders_of p (Frag 0) ≡ 1 ∷ 2 ∷ []) }
{
    let source = SourceSpec {
        name: Listed::from_vec(Vec::new(alloc)),
        columns: 1,
        log: Listed::from_vec(Vec::new(alloc)),
    };
    let frag = FragSpec {
        name: Listed::from_vec(Vec::new(alloc)),
        replicas: 2,
        delay: None,
        inputs: Listed::from_vec(Vec::new(alloc)),
        ops: Listed::from_vec(Vec::new(alloc)),
    };
    Ok(Plan {
        version: 1,
        passing: true,
        width: 10,
        delay: 20,
        end: 20,
        sources: Listed::from_vec(vec![in alloc; source]?),
        frags: Listed::from_vec(vec![in alloc; frag]?),
        clients: Listed::from_vec(Vec::new(alloc)),
    })
}

fn upstream(alloc: Global) -> Result<Upstream, NoMemory>
    ensures { IfOk result (λ u. u ≡ new_upstream (1 ∷ 2 ∷ [])) }
{
    Upstream::new(alloc, &plan(alloc)?, StreamRef::Frag(0))
}

fn beat(state: NodeState) -> Beat {
    Beat {
        inc: 1,
        state,
        recovering: false,
        over: 0,
        tally: None,
    }
}

#[test]
fn the_better_replica_is_asked(rt: HostRuntime) -> Result<(), Fail> {
    let mut upstream = upstream(rt.alloc())?;
    assert_eq!(rt; upstream.replica(2), Some(1));
    assert_eq!(rt; upstream.replica(0), None);
    assert_eq!(rt; upstream.choose(false, true), None);
    upstream.note_beat(0, beat(NodeState::UpFailure));
    assert_eq!(rt; upstream.choose(false, true), Some(2));
    assert_eq!(rt; (upstream.chosen(), upstream.senders()[0]), (1, 1));
    upstream.mark_truncated(1, 5);
    upstream.end_marks(4);
    assert_eq!(rt; upstream.choose(false, true), Some(1));
    assert!(rt; !upstream.all_truncated());
    Ok(())
}

#[test]
fn the_third_tick_asks_anew(rt: HostRuntime) -> Result<(), Fail> {
    let mut upstream = upstream(rt.alloc())?;
    upstream.tick();
    upstream.tick();
    assert_eq!(rt; upstream.choose(false, false), None);
    upstream.tick();
    assert_eq!(rt; upstream.choose(false, true), None);
    assert_eq!(rt; upstream.choose(false, false), Some(1));
    assert_eq!(rt; upstream.choose(false, false), None);
    upstream.forget_session();
    assert_eq!(rt; upstream.choose(true, true), Some(1));
    Ok(())
}
