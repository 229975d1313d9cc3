//! Where a view begins.
ghost use Rattle.std.specs.Prelude.{◌≡◌, ◌<◌, ◌≤◌, [], length, replicate, IsSome, IfOk};
ghost use Rattle.left_right.specs.Sides.{view};
ghost use Rattle.dpc_model.specs.Fragments.{IsSound};
ghost use Rattle.live_view.specs.Looking.{looker_of, new_looker};
ghost use Rattle.live_view.specs.Tellers.{new_teller};

use crate::looker::Looker;
use crate::names::ViewName;
use crate::rule::{Telling, ViewReader, ViewWriter};
use crate::shown::Shown;
use crate::teller::{Teller, published};
use dpc_lists::faults::NoMemory;
use dpc_lists::lists::Listed;
use dpc_model::plans::Plan;
use left_right::writer::Writer;
use std::alloc::{AllocError, Global};
use std::sync::Wait;

/// The view of one client's stream: a teller and its lookers.
pub struct LiveView;

/// Nothing of a client's stream.
fn nothing(alloc: Global, client: u64) -> Shown
    ensures { (result.client ≡ client) × (result.bound ≡ 0) × (result.tuples ≡ []) × (result.alloc ≡ alloc) }
{
    Shown {
        client,
        bound: 0,
        tuples: Listed::from_vec(Vec::new(alloc)),
        alloc,
    }
}

/// A reader that has seen what the writer has.
fn informed<N: ViewName>(writer: &mut ViewWriter<N>) -> Result<ViewReader<N>, AllocError>
    ensures seen { IfOk result (λ r. view r.place ≡ view writer.old.desk.place) }
    ensures same { (writer.new.desk.shown ≡ writer.old.desk.shown) × (view writer.new.desk.place ≡ view writer.old.desk.place) × (writer.new.log ≡ writer.old.log) × (writer.new.behind ≡ writer.old.behind) }
{
    let mut reader = writer.factory().reader()?;
    reader.learn::<Telling>(writer.tell::<Telling>());
    Ok(reader)
}

/// So many lookers that have seen what the writer has.
fn lookers<N: ViewName>(
    alloc: Global,
    writer: &mut ViewWriter<N>,
    readers: usize,
) -> Result<Vec<Looker<N>>, AllocError>
    requires { IsSome (view writer.old.desk.place).client }
    ensures made { IfOk result (λ l. l.items ≡ replicate readers (looker_of (view writer.old.desk.place) 0 0)) }
    ensures same { (writer.new.desk.shown ≡ writer.old.desk.shown) × (writer.new.log ≡ writer.old.log) × (writer.new.behind ≡ writer.old.behind) }
{
    let mut made = Vec::with_capacity(alloc, readers)?;
    for _ in 0..readers {
        made.push(Looker::over(informed(writer)?))?;
    }
    Ok(made)
}

impl LiveView {
    /// One teller of a client's stream and so many lookers at it, before anything is told. The plan is the one that `N`
    /// names, and `c` the client's number. It waits for no one.
    pub fn new<N: ViewName, R: Wait>(
        rt: &R,
        alloc: Global,
        plan: &Plan,
        c: u64,
        readers: u64,
    ) -> Result<(Teller<N>, Vec<Looker<N>>), NoMemory>
        requires name { plan.now ≡ N.plan }
        requires plan { IsSound plan.now × (c < length plan.now.clients) }
        requires readers { (1 ≤ readers) × (readers ≤ 8) }
        ensures teller { IfOk result (λ v. v.0 ≡ new_teller c) }
        ensures lookers { IfOk result (λ v. v.1.items ≡ replicate readers (new_looker c)) }
    {
        let _ = plan;
        let readers = readers as usize;
        let writer = Writer::new(alloc, nothing(alloc, c), nothing(alloc, c), readers)?;
        // The writer learns by a first publishing whose stream it shows, and each reader learns it from the writer.
        let (mut writer, shown) = published::<N, R>(writer, rt);
        if shown.is_err() {
            writer.take(rt);
            return Err(NoMemory);
        }
        let Ok(lookers) = lookers(alloc, &mut writer, readers) else {
            writer.take(rt);
            return Err(NoMemory);
        };
        let teller = Teller {
            writer,
            spent: false,
        };
        Ok((teller, lookers))
    }
}
