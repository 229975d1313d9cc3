//! What no clause says: that orders go through a pool where there is memory. Filters are the engines.
ghost use Rattle.std.specs.Prelude.{◌≡◌, IfOk, IsTrue};
ghost use Rattle.mill_work.specs.Milling.{IsOrder};
ghost use Rattle.mill_pool.specs.Answers.{IsSeatOf};
ghost use Rattle.mill_pool.specs.Seats.{known};

use crate::account::Account;
use crate::job::Ticket;
use crate::pool::{Pool, PutFault};
use crate::seat::Seat;
use dpc_lists::lists::Listed;
use dpc_model::engines::Engine;
use dpc_model::expressions::{Expr, ExprNode};
use fragment_mill::mill::FragMill;
use mill_work::order::Order;
use ops_stateless::filter::Filter;
use std::alloc::{AllocError, Global};
use std::marker::Brand;
use std::sync::Wait;
use std::test::Fail;
use std::thread;
use std::thread::Threads;

/// An order of one bucket without tuples, told by its node.
fn order(alloc: Global, node: u64) -> Result<Order<Filter>, AllocError>
    ensures { IfOk result (λ o. IsOrder ⟦<Filter as Engine>⟧.next ⟦<Filter as Engine>⟧.width ⟦<Filter as Engine>⟧.is_spent o) }
{
    let mut buckets = Vec::new(alloc);
    buckets.push(Listed::from_vec(Vec::new(alloc)))?;
    Ok(Order {
        node,
        inc: 1,
        cursor: 0,
        before: Filter::new(Expr {
            node: ExprNode::Num(1),
        }),
        buckets: Listed::from_vec(buckets),
    })
}

/// One order goes from the first seat to the second, another one doesn't fit beside it, and then none is there.
fn exchange<R: Wait>(
    rt: &R,
    alloc: Global,
    pool: &Pool<Filter, Brand>,
    first: &mut Seat<Filter, Brand>,
    second: &mut Seat<Filter, Brand>,
) -> Result<bool, Fail>
    requires first { IsSeatOf pool.now first.old }
    requires second { IsSeatOf pool.now second.old }
    ensures first { IfOk result (λ ok. IsTrue ok → IsSeatOf pool.now first.new × ((known first.new).parts ≡ (known first.old).parts)) }
    ensures second { IfOk result (λ ok. IsTrue ok → IsSeatOf pool.now second.new × ((known second.new).parts ≡ (known second.old).parts)) }
{
    let Ok(ticket) = pool.put(rt, first, order(alloc, 3)?) else {
        return Ok(false);
    };
    let Err(PutFault::Full(back)) = pool.put(rt, first, order(alloc, 4)?) else {
        return Ok(false);
    };
    let Some(job) = pool.take(rt, second)? else {
        return Ok(false);
    };
    let Ok(None) = pool.take(rt, second) else {
        return Ok(false);
    };
    let same = ticket.seat == 0 && ticket.number == 0 && job.ticket == ticket;
    Ok(same && back.node == 4 && job.into_order().node == 3)
}

/// Whether the first seat's first ticket was put and taken, no other was, and nothing is left.
fn has_one(account: &Account) -> bool {
    let ticket = Ticket { seat: 0, number: 0 };
    let put = account.put.as_slice() == [ticket].as_slice();
    let taken = account.taken.as_slice() == [ticket].as_slice();
    put && taken && account.left.is_empty()
}

/// A pool with room for one order, and two seats.
fn one_room<R: Wait>(rt: &R, alloc: Global) -> Result<bool, Fail> {
    let (pool, mut seats) = Pool::<Filter, Brand>::new(alloc, 1, 2)?;
    let Some(mut second) = seats.pop() else {
        return Ok(false);
    };
    let Some(mut first) = seats.pop() else {
        return Ok(false);
    };
    if !exchange(rt, alloc, &pool, &mut first, &mut second)? {
        return Ok(false);
    }
    seats.push(first)?;
    seats.push(second)?;
    match pool.close(alloc, seats) {
        Ok(account) => Ok(has_one(&account)),
        Err(_) => Ok(false),
    }
}

/// A worker that puts two orders.
fn put_two<R: Wait>(
    rt: &R,
    alloc: Global,
    pool: &Pool<Filter, Brand>,
    seat: Seat<Filter, Brand>,
) -> Seat<Filter, Brand>
    requires { IsSeatOf pool.now seat }
    ensures { IsSeatOf pool.now result × ((known result).parts ≡ (known seat).parts) }
{
    let mut mine = seat;
    if let (Ok(one), Ok(other)) = (order(alloc, 3), order(alloc, 4)) {
        let _ = pool.put(rt, &mut mine, one);
        let _ = pool.put(rt, &mut mine, other);
    }
    mine
}

/// A worker that takes an order, if there is one.
fn take_one<R: Wait>(
    rt: &R,
    pool: &Pool<Filter, Brand>,
    seat: Seat<Filter, Brand>,
) -> Seat<Filter, Brand>
    requires { IsSeatOf pool.now seat }
    ensures { IsSeatOf pool.now result × ((known result).parts ≡ (known seat).parts) }
{
    let mut mine = seat;
    let _ = pool.take(rt, &mut mine);
    mine
}

/// Two workers at once.
fn both_at_once<R: Threads + Wait + Sync>(
    rt: &R,
    alloc: Global,
    pool: &Pool<Filter, Brand>,
    first: Seat<Filter, Brand>,
    second: Seat<Filter, Brand>,
) -> (Seat<Filter, Brand>, Seat<Filter, Brand>)
    requires seats { IsSeatOf pool.now first × IsSeatOf pool.now second }
    ensures first { IsSeatOf pool.now result.0 × ((known result.0).parts ≡ (known first).parts) }
    ensures second { IsSeatOf pool.now result.1 × ((known result.1).parts ≡ (known second).parts) }
{
    thread::join(
        rt,
        move ||
            requires { IsSeatOf pool.now first }
            ensures { IsSeatOf pool.entry.now result × ((known result).parts ≡ (known first).parts) }
        { put_two(rt, alloc, pool, first) },
        move ||
            requires { IsSeatOf pool.now second }
            ensures { IsSeatOf pool.entry.now result × ((known result).parts ≡ (known second).parts) }
        { take_one(rt, pool, second) },
    )
}

/// Whether two were put, and each was taken or is left.
fn has_two(account: &Account) -> bool {
    account.put.len() == 2 && account.taken.len().saturating_add(account.left.len()) == 2
}

/// What two workers put and took at once is put, and taken or left.
fn two_workers<R: Threads + Wait + Sync>(rt: &R, alloc: Global) -> Result<bool, Fail> {
    let (pool, mut seats) = Pool::<Filter, Brand>::new(alloc, 4, 2)?;
    let Some(second) = seats.pop() else {
        return Ok(false);
    };
    let Some(first) = seats.pop() else {
        return Ok(false);
    };
    let (first, second) = both_at_once(rt, alloc, &pool, first, second);
    seats.push(first)?;
    seats.push(second)?;
    match pool.close(alloc, seats) {
        Ok(account) => Ok(has_two(&account)),
        Err(_) => Ok(false),
    }
}

/// A pool for the engines of fragments, of which nothing is asked.
fn of_fragments(alloc: Global) -> Result<bool, Fail> {
    let (pool, seats) = Pool::<FragMill, Brand>::new(alloc, 64, 3)?;
    match pool.close(alloc, seats) {
        Ok(account) => Ok(
            account.put.is_empty() && account.taken.is_empty() && account.left.is_empty(),
        ),
        Err(_) => Ok(false),
    }
}

#[test]
fn an_order_goes_through(rt: HostRuntime) -> Result<(), Fail> {
    let through = one_room(&rt, rt.alloc())?;
    assert!(rt; through);
    Ok(())
}

#[test]
fn two_workers_share_a_pool(rt: HostRuntime) -> Result<(), Fail> {
    let shared = two_workers(&rt, rt.alloc())?;
    assert!(rt; shared);
    Ok(())
}

#[test]
fn a_pool_of_fragments_closes(rt: HostRuntime) -> Result<(), Fail> {
    let closed = of_fragments(rt.alloc())?;
    assert!(rt; closed);
    Ok(())
}
