//! Tells a client's stream to its lookers.
ghost use Rattle.std.specs.Prelude.{◌≡◌, [], ◌∷◌, ◌+◌, ◌++◌, true, length, drop, fold, Err, IfOk, IsOk, OnErr};
ghost use Rattle.left_right.specs.Sides.{view};
ghost use Rattle.dpc_model.specs.declared.faults.StepFault.TheVariants as fault;
ghost use Rattle.node_model.specs.Clients.{client_stream};
ghost use Rattle.world_model.specs.Safe.{AreTrueItems};
ghost use Rattle.live_view.specs.Showing.{IsTrueShown, with_news, sight_of};
ghost use Rattle.live_view.specs.Telling.{new_tuples, new_bound, in_batches};
ghost use Rattle.live_view.specs.Tellers.{told};

use crate::names::ViewName;
use crate::receipt::Receipt;
use crate::rule::{Seeing, ViewWriter};
use crate::shown::News;
use core::mem::replace_with;
use dpc_lists::exact::Exact;
use dpc_lists::lists::Listed;
use dpc_lists::shared::Shared;
use dpc_model::faults::StepFault;
use dpc_model::tuples::{Item, Tuple};
use std::alloc::{AllocError, Global};
use std::marker::{Model, PhantomData};
use std::sync::Wait;

/// The one that tells a client's stream. It isn't dropped: end it by `close`. Contracts see a `TellerState`.
pub struct Teller<N: ViewName> {
    pub(crate) writer: ViewWriter<N>,
    pub(crate) spent: bool,
}

impl<N: ViewName> Model for Teller<N> {
    ghost use Rattle.std.specs.Coded.{codes};
    ghost use Rattle.std.specs.Prelude.{◌≡◌, false, [], drop};
    ghost use Rattle.live_view.specs.Tellers.{TellerState, teller_of};

    ghost Value = { TellerState };

    ghost coded = { Prim.hlevel codes };

    ghost view = { λ t. teller_of t.writer.desk.shown.value t.spent };

    // Between two calls nothing is pending, but where memory was wanted.
    ghost invariant = { λ t. t.spent ≡ false → drop t.writer.behind t.writer.log.items ≡ [] };
}

/// What is new in items, where so many stable tuples were told before them.
#[derive(Drop)]
struct Gathering {
    count: u128,
    bound: u64,
    tuples: Vec<Tuple>,
}

impl Gathering {
    /// What one more item tells.
    fn add(&mut self, alloc: Global, item: &Item) -> Result<(), AllocError>
        ensures tuples { IfOk result (λ _. self.new.tuples.items ≡ self.old.tuples.items ++ new_tuples self.old.count (item.now ∷ [])) }
        ensures count { IfOk result (λ _. self.new.count ≡ self.old.count + length (new_tuples self.old.count (item.now ∷ []))) }
        ensures bound { IfOk result (λ _. self.new.bound ≡ new_bound self.old.count self.old.bound (item.now ∷ [])) }
    {
        match item {
            Item::Stable(number, tuple) if u128::from(*number) == self.count => {
                self.tuples.push(tuple.copy(alloc)?)?;
                self.count += 1;
            }
            Item::Boundary(upto, count) if u128::from(*count) <= self.count => {
                self.bound = self.bound.max(*upto);
            }
            _ => (),
        }
        Ok(())
    }

    /// What the items of one more batch tell.
    fn add_all(&mut self, alloc: Global, items: &[Item]) -> Result<(), AllocError>
        ensures tuples { IfOk result (λ _. self.new.tuples.items ≡ self.old.tuples.items ++ new_tuples self.old.count items.now) }
        ensures count { IfOk result (λ _. self.new.count ≡ self.old.count + length (new_tuples self.old.count items.now)) }
        ensures bound { IfOk result (λ _. self.new.bound ≡ new_bound self.old.count self.old.bound items.now) }
    {
        for item in items {
            self.add(alloc, item)?;
        }
        Ok(())
    }
}

/// What is new in batches, where so many stable tuples were told before them.
fn news_in(alloc: Global, count: u128, batches: &[Shared<Item>]) -> Result<News, AllocError>
    ensures tuples { IfOk result (λ n. n.tuples ≡ new_tuples count (in_batches batches.now)) }
    ensures bound { IfOk result (λ n. n.bound ≡ new_bound count 0 (in_batches batches.now)) }
{
    let mut gathering = Gathering {
        count,
        bound: 0,
        tuples: Vec::new(alloc),
    };
    for batch in batches {
        gathering.add_all(alloc, batch.as_slice())?;
    }
    Ok(News {
        bound: gathering.bound,
        tuples: Listed::from_vec(gathering.tuples),
    })
}

/// Shows the news that is pending.
pub(crate) fn published<N: ViewName, R: Wait>(
    writer: ViewWriter<N>,
    rt: &R,
) -> (ViewWriter<N>, Result<(), AllocError>)
    requires { IsTrueShown N.plan writer.desk.shown.value → IsTrueShown N.plan (fold with_news writer.desk.shown.value (drop writer.behind writer.log.items)) }
    ensures shown { IsOk result.1 → result.0.desk.shown.value ≡ fold with_news writer.desk.shown.value (drop writer.behind writer.log.items) }
    ensures seen { IsOk result.1 → view result.0.desk.place ≡ sight_of result.0.desk.shown.value }
    ensures pending { IsOk result.1 → drop result.0.behind result.0.log.items ≡ [] }
    ensures err { OnErr result.1 (result.0.desk.shown.value ≡ writer.desk.shown.value) }
{
    writer.publish_as::<Seeing<N>, R>(rt)
}

impl<N: ViewName> Teller<N> {
    /// What was told so far.
    fn receipt(&self) -> Receipt<N>
        ensures client { result.client ≡ self.now.client }
        ensures count { result.count ≡ length self.now.tuples }
        ensures bound { result.bound ≡ self.now.bound }
    {
        let shown = self.writer.published();
        Receipt {
            client: shown.client,
            count: shown.tuples.len() as u64,
            bound: shown.bound,
            name: PhantomData,
        }
    }

    /// Appends the stable tuples that go on where those told before ended, raises the bound to the boundaries that count
    /// no more, and shows both at once; other items change nothing, so what was told already may be told again. It
    /// waits for looks that still read what the telling before replaced. Where memory is wanted nothing is shown, and
    /// the teller is spent: it tells nothing any more.
    pub fn tell<R: Wait>(
        &mut self,
        rt: &R,
        alloc: Global,
        batches: &[Shared<Item>],
    ) -> Result<Receipt<N>, StepFault>
        requires { AreTrueItems N.plan (client_stream N.plan self.old.client) (in_batches batches.now) }

        ensures told { IfOk result (λ _. self.new ≡ told (in_batches batches.now) self.old) }
        ensures receipt { IfOk result (λ r. (r.client ≡ self.new.client) × (r.count ≡ length self.new.tuples) × (r.bound ≡ self.new.bound)) }

        ensures spent { self.old.spent ≡ true → (result ≡ Err fault.Spent) × (self.new ≡ self.old) }
        ensures only { result ≡ Err fault.Spent → self.old.spent ≡ true }
        ensures no_memory { result ≡ Err fault.NoMemory → self.new ≡ record self.old { spent = true } }
    {
        if self.spent {
            return Err(StepFault::Spent);
        }
        self.spent = true;
        let told = self.writer.published().tuples.len() as u128;
        let news = news_in(alloc, told, batches)?;
        let Ok(()) = self.writer.append(news) else {
            return Err(StepFault::NoMemory);
        };
        let Ok(()) = replace_with(&mut self.writer, rt, published::<N, R>) else {
            return Err(StepFault::NoMemory);
        };
        self.spent = false;
        Ok(self.receipt())
    }

    /// Ends the telling, once no look goes on that began before. A look that begins later need not return.
    pub fn close<R: Wait>(self, rt: &R) {
        let Self { writer, spent: _ } = self;
        writer.take(rt);
    }
}
