//! Actors by their names.
ghost use Rattle.std.specs.Prelude.{◌≡◌, ◌+◌, IfOk, MatchOption, length, Some, None};
ghost use Rattle.script_rules.specs.Drafts.{place_of_name};
ghost use Rattle.journal_text.specs.Actors.{node_names, actor_named, actor_of, behind_dot, behind_name, replica_named};

use crate::sorts::{Sort, is_of};
use dpc_lists::faults::NoMemory;
use dpc_model::actors::{narrow, role_of};
use dpc_model::plans::{FragSpec, Plan};
use script_draft::named::place_of;
use script_words::spelling::number;

/// What stands behind a dot.
fn behind_dot(text: &[u8]) -> Option<&[u8]>
    ensures { MatchOption result (behind_dot text.now ≡ None) (λ rest. behind_dot text.now ≡ Some rest.now) }
{
    match text {
        [b'.', rest @ ..] => Some(rest),
        _ => None,
    }
}

/// What stands in a word behind a name and a dot.
fn behind_name<'a>(word: &'a [u8], name: &[u8]) -> Option<&'a [u8]>
    ensures { MatchOption result (behind_name word.now name.now ≡ None) (λ rest. behind_name word.now name.now ≡ Some rest.now) }
{
    if word.len() < name.len() {
        return None;
    }
    let (front, behind) = word.split_at(name.len());
    if front == name {
        behind_dot(behind)
    } else {
        None
    }
}

/// The replica whose name a word is.
fn replica_named(word: &[u8], frag: &FragSpec) -> Option<u64>
    ensures { result ≡ replica_named word.now frag.now }
{
    let replica = number(behind_name(word, frag.name.as_slice())?)?;
    if replica < frag.replicas {
        Some(replica)
    } else {
        None
    }
}

/// A sum, where one out of range counts as want of memory.
fn add(a: u64, b: u64) -> Result<u64, NoMemory>
    ensures { IfOk result (λ sum. sum ≡ a + b) }
{
    a.checked_add(b).ok_or(NoMemory)
}

/// The place of the node of that name among all nodes.
fn node_named(word: &[u8], frags: &[FragSpec]) -> Result<Option<u64>, NoMemory>
    ensures { IfOk result (λ place. place ≡ place_of_name word.now (node_names frags.now)) }
{
    let mut before: u64 = 0;
    for frag in frags {
        let replicas = frag.replicas;
        if let Some(replica) = replica_named(word, frag) {
            return Ok(Some(add(before, replica)?));
        }
        before = add(before, replicas)?;
    }
    Ok(None)
}

/// How many nodes there are.
fn count_nodes(frags: &[FragSpec]) -> Result<u64, NoMemory>
    ensures { IfOk result (λ count. count ≡ length (node_names frags.now)) }
{
    let mut count: u64 = 0;
    for frag in frags {
        count = add(count, frag.replicas)?;
    }
    Ok(count)
}

/// The number of the actor of that name. A number out of range counts as want of memory.
fn actor_named(plan: &Plan, word: &[u8]) -> Result<Option<u64>, NoMemory>
    ensures { IfOk result (λ actor. actor ≡ actor_named plan.now word.now) }
{
    if let Some(source) = place_of(word, plan.sources.as_slice()) {
        return Ok(Some(source));
    }
    let sources = plan.sources.len() as u64;
    let frags = plan.frags.as_slice();
    if let Some(node) = node_named(word, frags)? {
        return Ok(Some(add(sources, node)?));
    }
    let Some(client) = place_of(word, plan.clients.as_slice()) else {
        return Ok(None);
    };
    let others = add(sources, count_nodes(frags)?)?;
    Ok(Some(add(others, client)?))
}

/// The number of the actor of that name, where it is of a sort.
pub fn actor_of(plan: &Plan, sort: Sort, word: &[u8]) -> Result<Option<u32>, NoMemory>
    ensures { IfOk result (λ actor. actor ≡ actor_of plan.now sort word.now) }
{
    let Some(actor) = actor_named(plan, word)? else {
        return Ok(None);
    };
    if is_of(sort, role_of(plan, actor)) {
        Ok(Some(narrow(actor)?))
    } else {
        Ok(None)
    }
}
