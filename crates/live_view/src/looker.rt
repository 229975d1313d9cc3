//! Looks at a client's stream, beside its teller.
ghost use Rattle.std.specs.Prelude.{◌≡◌, ◌≤◌, max, length, drop, IsSome, IfOk};
ghost use Rattle.left_right.specs.Sides.{view};
ghost use Rattle.live_view.specs.Showing.{IsTrueShown, Precedes, sight_of};
ghost use Rattle.live_view.specs.Looking.{IsLook, IsNoLess, looker_of};

use crate::names::ViewName;
use crate::receipt::Receipt;
use crate::rule::{Grows, Seeing, ViewReader};
use crate::shown::Shown;
use crate::sight::Sight;
use core::mem::replace_with;
use crossbeam_utils::Backoff;
use dpc_lists::exact::copied;
use dpc_lists::faults::NoMemory;
use dpc_lists::lists::Listed;
use dpc_model::tuples::Tuples;
use left_right::reader::Reading;
use std::alloc::{AllocError, Global};
use std::marker::Model;
use std::sync::Wait;

/// What was seen of a stream: how many stable tuples there are, up to where they are all, and those from a number on.
#[derive(Drop)]
pub struct Seen {
    pub count: u64,
    pub bound: u64,
    pub tuples: Tuples,
}

/// The least that a look is to show.
#[derive(Clone, Copy)]
struct Least {
    count: u64,
    bound: u64,
}

/// What a look asks for.
#[derive(Drop)]
struct Asked<'a, R> {
    rt: &'a R,
    alloc: Global,
    from: u64,
    least: Least,
}

/// One reader of a client's stream. Contracts see a `LookerState`.
#[derive(Drop)]
pub struct Looker<N: ViewName> {
    reader: ViewReader<N>,
    /// What receipts told. What was seen the reader itself knows.
    learnt: Least,
}

impl<N: ViewName> Model for Looker<N> {
    ghost use Rattle.std.specs.Coded.{codes};
    ghost use Rattle.std.specs.Prelude.{IsSome};
    ghost use Rattle.left_right.specs.Sides.{view as seen_at};
    ghost use Rattle.live_view.specs.Looking.{LookerState, looker_of};

    ghost Value = { LookerState };

    ghost coded = { Prim.hlevel codes };

    ghost view = { λ l. looker_of (seen_at l.reader.place) l.learnt.count l.learnt.bound };

    ghost invariant = { λ l. IsSome (seen_at l.reader.place).client };
}

/// Enters until no less is shown than the least. The reader comes back where the teller is closed, and tries again.
fn entered<N: ViewName, R: Wait>(
    rt: &R,
    reader: ViewReader<N>,
    least: Least,
) -> Reading<Shown, Sight, Grows<N>>
    ensures shown { IsTrueShown N.plan result.part.value }
    ensures seen { Precedes (view reader.place) (sight_of result.part.value) × (view result.place ≡ sight_of result.part.value) }
    ensures least { (least.count ≤ length result.part.value.tuples) × (least.bound ≤ result.part.value.bound) }
{
    let backoff = Backoff::new();
    let mut reader = reader;
    for _ in rt.forever() {
        match reader.enter_as::<Seeing<N>>() {
            Ok(reading) => {
                let shown = reading.get();
                let enough = least.count <= shown.tuples.len() as u64 && least.bound <= shown.bound;
                if enough {
                    return reading;
                }
                reader = reading.leave();
            }
            Err(handed_back) => reader = handed_back,
        }
        backoff.snooze();
    }
    unreachable!()
}

/// The tuples from a number on. It copies these alone.
fn seen_from(alloc: Global, shown: &Shown, from: u64) -> Result<Seen, AllocError>
    ensures numbers { IfOk result (λ s. (s.count ≡ length shown.now.tuples) × (s.bound ≡ shown.now.bound)) }
    ensures tuples { IfOk result (λ s. s.tuples ≡ drop from shown.now.tuples) }
{
    let tuples = shown.tuples.as_slice();
    let count = tuples.len() as u64;
    let start = from.min(count) as usize;
    let tuples = Listed::from_vec(copied(alloc, &tuples[start..])?);
    Ok(Seen {
        count,
        bound: shown.bound,
        tuples,
    })
}

/// Looks once there is enough to see.
fn looked<N: ViewName, R: Wait>(
    reader: ViewReader<N>,
    asked: Asked<'_, R>,
) -> (ViewReader<N>, Result<Seen, AllocError>)
    ensures { (x : Shown) × IsTrueShown N.plan x × Precedes (view reader.place) (sight_of x) × (view result.0.place ≡ sight_of x)
        × (asked.entry.least.count ≤ length x.tuples) × (asked.entry.least.bound ≤ x.bound)
        × IfOk result.1 (λ s. (s.count ≡ length x.tuples) × (s.bound ≡ x.bound) × (s.tuples ≡ drop asked.entry.from x.tuples)) }
{
    let reading = entered(asked.rt, reader, asked.least);
    let seen = seen_from(asked.alloc, reading.get(), asked.from);
    (reading.leave(), seen)
}

impl<N: ViewName> Looker<N> {
    /// A looker by this reader, which learnt nothing more.
    pub(crate) fn over(reader: ViewReader<N>) -> Looker<N>
        requires { IsSome (view reader.place).client }
        ensures { result ≡ looker_of (view reader.place) 0 0 }
    {
        Looker {
            reader,
            learnt: Least { count: 0, bound: 0 },
        }
    }

    /// What there is to see of the stream, with the tuples from number `from` on, counted from 0: no less than this
    /// looker saw before, and than it learnt. It never waits for the teller, but where that one is closed, or shows
    /// less than was learnt. Where memory is wanted, the looker keeps what it saw.
    pub fn look<R: Wait>(&mut self, rt: &R, alloc: Global, from: u64) -> Result<Seen, NoMemory>
        ensures look { IfOk result (λ s. IsLook N.plan self.old.client from s.count s.bound s.tuples) }
        ensures no_less { IfOk result (λ s. (self.old.count ≤ s.count) × (self.old.bound ≤ s.bound)) }
        ensures after { IfOk result (λ s. self.new ≡ record self.old { count = s.count; bound = s.bound }) }
        ensures kept { IsNoLess self.old self.new }
    {
        let asked = Asked {
            rt,
            alloc,
            from,
            least: self.learnt,
        };
        Ok(replace_with(&mut self.reader, asked, looked::<N, R>)?)
    }

    /// From now on a look shows no less than this receipt tells. It takes no memory.
    pub fn learn(&mut self, receipt: &Receipt<N>)
        requires { receipt.now.client ≡ self.old.client }
        ensures { self.new ≡ record self.old { count = max self.old.count receipt.now.count; bound = max self.old.bound receipt.now.bound } }
    {
        self.learnt.count = self.learnt.count.max(receipt.count);
        self.learnt.bound = self.learnt.bound.max(receipt.bound);
    }
}
