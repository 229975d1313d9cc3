//! What was put into a pool, what was taken out, and what was left, by tickets.
ghost use Rattle.std.specs.Prelude.{◌≡◌, IfOk, not, filter};
ghost use Rattle.std.specs.HashSet.{IsFromIterResult, contains};
ghost use Rattle.mill_pool.specs.Jobs.{is_ticket, left_of, tickets};
ghost use Rattle.mill_pool.specs.Seats.{put_by, taken_by};

use crate::job::Ticket;
use crate::kind::OrderKind;
use crate::seat::Seat;
use dpc_lists::faults::NoMemory;
use dpc_lists::lists::Listed;
use dpc_model::engines::Engine;
use std::alloc::{AllocError, Global};
use std::collections::HashSet;

/// The tickets of the jobs that were put, of those that were taken, and of those that were left: each seat's in the
/// order of its calls, one seat behind another.
#[derive(Drop)]
pub struct Account {
    pub put: Listed<Ticket>,
    pub taken: Listed<Ticket>,
    pub left: Listed<Ticket>,
}

/// The account of all seats of a pool.
pub(crate) fn account_of<M: Engine, K: OrderKind<M>>(
    alloc: Global,
    seats: &[Seat<M, K>],
) -> Result<Account, NoMemory>
    ensures put { IfOk result (λ a. a.put ≡ tickets (put_by seats.now)) }
    ensures taken { IfOk result (λ a. a.taken ≡ tickets (taken_by seats.now)) }
    ensures left { IfOk result (λ a. a.left ≡ left_of (tickets (put_by seats.now)) (tickets (taken_by seats.now))) }
{
    let put = all_put(alloc, seats)?;
    let taken = all_taken(alloc, seats)?;
    let left = all_left(alloc, put.as_slice(), taken.as_slice())?;
    Ok(Account {
        put: Listed::from_vec(put),
        taken: Listed::from_vec(taken),
        left: Listed::from_vec(left),
    })
}

/// The tickets that seats put.
fn all_put<M: Engine, K: OrderKind<M>>(
    alloc: Global,
    seats: &[Seat<M, K>],
) -> Result<Vec<Ticket>, NoMemory>
    ensures { IfOk result (λ v. v.items ≡ tickets (put_by seats.now)) }
{
    let mut all = Vec::new(alloc);
    for seat in seats {
        all.extend_from_slice(seat.put_tickets())?;
    }
    Ok(all)
}

/// The tickets that seats took.
fn all_taken<M: Engine, K: OrderKind<M>>(
    alloc: Global,
    seats: &[Seat<M, K>],
) -> Result<Vec<Ticket>, NoMemory>
    ensures { IfOk result (λ v. v.items ≡ tickets (taken_by seats.now)) }
{
    let mut all = Vec::new(alloc);
    for seat in seats {
        all.extend_from_slice(seat.taken_tickets())?;
    }
    Ok(all)
}

/// A set of these tickets, which finds one by its hash.
fn set_of(alloc: Global, tickets: &[Ticket]) -> Result<HashSet<Ticket>, AllocError>
    ensures { IfOk result (IsFromIterResult is_ticket tickets.now) }
{
    tickets.iter().copied().collect(alloc)
}

/// Those that are not in the set, in their order.
fn not_in(alloc: Global, tickets: &[Ticket], set: &HashSet<Ticket>) -> Result<Vec<Ticket>, NoMemory>
    ensures { IfOk result (λ v. v.items ≡ filter (λ t. not (contains is_ticket set.now t)) tickets.now) }
{
    let mut others = Vec::new(alloc);
    for ticket in tickets {
        if !set.contains(ticket) {
            others.push(*ticket)?;
        }
    }
    Ok(others)
}

/// The tickets that were put and not taken, in the order of those put.
fn all_left(alloc: Global, put: &[Ticket], taken: &[Ticket]) -> Result<Vec<Ticket>, NoMemory>
    ensures { IfOk result (λ v. v.items ≡ left_of put.now taken.now) }
{
    let gone = set_of(alloc, taken)?;
    let left = not_in(alloc, put, &gone)?;
    Ok(left)
}
