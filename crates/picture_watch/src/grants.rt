//! Promises to wait for another replica that are new.
ghost use Rattle.std.specs.Prelude.{◌≡◌, ◌+◌, ◌<◌, ◌^◌, ◌++◌, ℕ, length, None, IfOk, OnOk};
ghost use Rattle.dpc_lists.specs.Lists.{nth};
ghost use Rattle.dpc_model.specs.Actors.{role_of};
ghost use Rattle.picture_model.specs.Marking.{is_to, peer_at, grant_by, grant_at, grants_between};

use dpc_lists::faults::NoMemory;
use dpc_model::actors::{Role, role_of};
use dpc_model::plans::Plan;
use picture_model::columns::Mark;

/// Whether a promise is to this replica.
fn is_to(replica: usize, promise: Option<usize>) -> bool
    ensures { result ≡ is_to replica promise }
{
    promise == Some(replica)
}

/// The actor of another replica of the fragment that an actor of this role belongs to. One past the numbers of
/// actors counts as want of memory.
fn peer_at(actor: u64, replica: u64, role: Role) -> Result<u64, NoMemory>
    ensures { IfOk result (λ peer. peer ≡ peer_at actor replica role) }
{
    let Role::Node(_, own) = role else {
        return Ok(actor);
    };
    let sum = actor.checked_add(replica).ok_or(NoMemory)?;
    Ok(sum.saturating_sub(own))
}

/// The mark of an actor's promise, where it is new.
fn put_grant(
    marks: &mut Vec<Mark>,
    plan: &Plan,
    actor: u64,
    before: Option<usize>,
    now: Option<usize>,
) -> Result<(), NoMemory>
    ensures { OnOk result (marks.new.items ≡ marks.old.items ++ grant_by plan.now actor before now) }
{
    let Some(replica) = now else {
        return Ok(());
    };
    if !is_to(replica, before) {
        let peer = peer_at(actor, replica as u64, role_of(plan, actor))?;
        marks.push(Mark::Grant(actor, peer))?;
    }
    Ok(())
}

/// The promise in a place.
fn promise_at(promises: &[Option<usize>], i: usize) -> Option<usize>
    ensures { result ≡ nth None promises.now i }
{
    promises.get(i).copied().unwrap_or(None)
}

/// The mark of the replica in a place.
fn put_grant_at(
    marks: &mut Vec<Mark>,
    plan: &Plan,
    before: &[Option<usize>],
    now: &[Option<usize>],
    i: usize,
) -> Result<(), NoMemory>
    ensures { OnOk result (marks.new.items ≡ marks.old.items ++ grant_at plan.now before.now now.now i) }
{
    let actor = (plan.sources.len() as u64)
        .checked_add(i as u64)
        .ok_or(NoMemory)?;
    put_grant(
        marks,
        plan,
        actor,
        promise_at(before, i),
        promise_at(now, i),
    )
}

/// The marks of all promises that are new.
pub(crate) fn put_grants(
    marks: &mut Vec<Mark>,
    plan: &Plan,
    before: &[Option<usize>],
    now: &[Option<usize>],
) -> Result<(), NoMemory>
    ensures { OnOk result (marks.new.items ≡ marks.old.items ++ grants_between plan.now before.now now.now) }
{
    for i in 0..now.len() {
        put_grant_at(marks, plan, before, now, i)?;
    }
    Ok(())
}
