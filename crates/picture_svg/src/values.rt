//! What is shown of a phase in a lane, as a number or a letter.
ghost use Rattle.std.specs.Prelude.{◌≡◌, ◌+◌, IfOk};
ghost use Rattle.dpc_lists.specs.Lists.{nth};
ghost use Rattle.picture_model.specs.Points.{first_point};
ghost use Rattle.picture_model.specs.declared.columns.ReplicaState.TheVariants.{Down as IsDown};
ghost use Rattle.picture_svg.specs.Values.{state_letter, value_of, values_of};
ghost use Rattle.picture_text.specs.Strips.{first_client};

use crate::layout::{column_at, count_of};
use dpc_lists::faults::NoMemory;
use picture_model::columns::{ClientPoint, Column, ReplicaState, SourcePoint};
use picture_text::signs::{link_sign, reads_sign};
use picture_text::strips::{client_point, source_point};
use std::alloc::Global;

/// What a lane shows: of a source, the links, a replica or a client.
#[derive(Clone, Copy)]
pub enum What {
    Bound(u64),
    Sent(u64),
    Links,
    State(u64),
    Stable(u64),
    Held(u64),
    Undos(u64),
    Dones(u64),
    Reads(u64),
}

/// The letter of a state.
fn state_letter(state: ReplicaState) -> u8
    ensures { result ≡ state_letter state }
{
    match state {
        ReplicaState::Stable => b'S',
        ReplicaState::UpFailure => b'U',
        ReplicaState::Stabilization => b'C',
        ReplicaState::Recovering => b'R',
        ReplicaState::Down => b'x',
    }
}

/// The state of the replica at a place, or down.
fn replica_at(replicas: &[ReplicaState], r: usize) -> ReplicaState
    ensures { result ≡ nth IsDown replicas.now r }
{
    match replicas.get(r) {
        Some(replica) => *replica,
        None => ReplicaState::Down,
    }
}

fn source_of(column: &Column, source: u64) -> SourcePoint
    ensures { result ≡ nth first_point column.now.sources source }
{
    source_point(column.sources.as_slice(), source as usize)
}

fn client_of(column: &Column, client: u64) -> ClientPoint
    ensures { result ≡ nth first_client column.now.clients client }
{
    client_point(column.clients.as_slice(), client as usize)
}

/// How many tuples a client holds. A sum out of range counts as want of memory.
fn held(client: ClientPoint) -> Result<u64, NoMemory>
    ensures { IfOk result (λ held. held ≡ client.stable + client.tentative) }
{
    client.stable.checked_add(client.tentative).ok_or(NoMemory)
}

/// What a lane shows of a phase.
fn value_of(what: What, column: &Column) -> Result<u64, NoMemory>
    ensures { IfOk result (λ value. value ≡ value_of what column.now) }
{
    match what {
        What::Bound(s) => Ok(source_of(column, s).bound),
        What::Sent(s) => Ok(source_of(column, s).sent),
        What::Links => Ok(u64::from(link_sign(column.cuts))),
        What::State(r) => {
            let state = replica_at(column.replicas.as_slice(), r as usize);
            Ok(u64::from(state_letter(state)))
        }
        What::Stable(c) => Ok(client_of(column, c).stable),
        What::Held(c) => held(client_of(column, c)),
        What::Undos(c) => Ok(client_of(column, c).undos),
        What::Dones(c) => Ok(client_of(column, c).dones),
        What::Reads(c) => Ok(u64::from(reads_sign(client_of(column, c)))),
    }
}

/// What a lane shows, at each phase that is shown.
pub(crate) fn values_of(alloc: Global, what: What, columns: &[Column]) -> Result<Vec<u64>, NoMemory>
    ensures { IfOk result (λ values. values.items ≡ values_of what columns.now) }
{
    let mut values = Vec::new(alloc);
    for j in 0..count_of(columns) {
        values.push(value_of(what, column_at(columns, j))?)?;
    }
    Ok(values)
}
