//! The work of one thread.
ghost use Rattle.std.specs.Prelude.{◌≡◌, ◌<◌};

use crate::hand::Hand;
use crate::looking::{Look, Station, Work};
use crate::milling::{ByHand, Milling};
use crate::post::{Post, give_up};
use crate::signals::Signals;
use crate::turn::{Turn, pause};
use dpc_edge::gate::Gate;
use dpc_lists::steps::Steps;
use dpc_model::messages::Event;
use event_shares::names::RunName;
use event_shares::share::Share;
use live_parts::due::Due;
use std::marker::Brand;
use std::sync::Wait;
use std::sync::ledger::{Blank, Ledger};

/// How many events are made under one lock.
const AT_ONCE: usize = 64;

/// What somebody does again and again for a run.
pub trait Role<N: RunName> {
    /// What acting leaves as it is.
    type Kept;

    ghost kept: { Self → Self.Kept };

    /// What has to hold of it, and holds all the time.
    ghost may_act: { Self → Type 0 };

    /// Looks for something to do, and does it.
    fn act<R: Wait, G: Gate, S: Ledger>(
        &mut self,
        rt: &R,
        post: &Post<'_, N, G>,
        share: &mut Share<N>,
        steps: &mut Steps<S>,
    ) -> Turn
        requires { may_act self.old }
        ensures share { share.new.parts ≡ share.old.parts }
        ensures kept { kept self.new ≡ kept self.old }
        ensures goes_on { may_act self.new };
}

/// Who makes the events of some actors: where it stands, what it has to do in a phase, and how it has buckets milled.
#[derive(Drop)]
pub struct Worker<W> {
    station: Station,
    work: Work,
    pub milling: W,
}

impl<W> Worker<W> {
    /// The worker of a post, which has come, before its first look. It takes no memory.
    pub fn new<N: RunName, G>(post: &Post<'_, N, G>, milling: W) -> Worker<W>
        ensures { result.milling ≡ milling }
    {
        post.signals.come();
        let station = Station {
            worker: post.worker,
            workers: post.workers,
            taken: 0,
            opened: 0,
        };
        Worker {
            station,
            work: Work::new(post.alloc),
            milling,
        }
    }
}

/// The first actor that an event names, 0 of a phase.
fn first_actor(e: Event) -> u64 {
    match e {
        Event::Phase(_) | Event::Deliver(_) => 0,
        Event::Emit(actor, _)
        | Event::Release(actor, _)
        | Event::Cut(actor, _)
        | Event::Heal(actor, _)
        | Event::Crash(actor)
        | Event::Restart(actor, _)
        | Event::Tick(actor, _)
        | Event::Mill(actor, _) => u64::from(actor),
    }
}

/// Tries the event of a directive or of a phase.
fn lead<N: RunName, R: Wait, G: Gate>(
    rt: &R,
    post: &Post<'_, N, G>,
    e: Event,
    share: &mut Share<N>,
) -> Turn
    ensures { share.new.parts ≡ share.old.parts }
{
    post.gate.at_event(first_actor(e));
    let told = post.hall.lock(rt).event(post.alloc, e, share);
    match told {
        Ok(true) => Turn::Done,
        Ok(false) => Turn::Idle,
        Err(_) => Turn::Over,
    }
}

/// Tells the gate of some events, and then makes them under one lock.
fn try_some<N: RunName, R: Wait, G: Gate>(
    rt: &R,
    post: &Post<'_, N, G>,
    due: &[Due],
    share: &mut Share<N>,
) -> Turn
    ensures { share.new.parts ≡ share.old.parts }
{
    for one in due {
        post.gate.at_event(u64::from(one.actor));
    }
    let told = post.hall.lock(rt).try_all(post.alloc, due, share);
    match told {
        Ok(()) => Turn::Done,
        Err(_) => Turn::Over,
    }
}

/// Makes a worker's events of a phase.
fn try_all<N: RunName, R: Wait, G: Gate>(
    rt: &R,
    post: &Post<'_, N, G>,
    due: &[Due],
    share: &mut Share<N>,
) -> Turn
    ensures { share.new.parts ≡ share.old.parts }
{
    for some in due.chunks(AT_ONCE) {
        if try_some(rt, post, some, share) == Turn::Over {
            return Turn::Over;
        }
    }
    Turn::Done
}

/// Whether there may be something to do: others have work to be taken, or the first worker has all rest.
fn may_look<N: RunName, G>(post: &Post<'_, N, G>, station: Station) -> bool {
    if station.worker == 0 {
        station.all_rested(post.signals.rested())
    } else {
        post.signals.opened() != station.taken
    }
}

impl<W> Worker<W> {
    /// Does its work of a phase that was put down, and rests.
    fn share_in<N: RunName, R: Wait, G: Gate, S: Ledger>(
        &mut self,
        rt: &R,
        post: &Post<'_, N, G>,
        share: &mut Share<N>,
        steps: &mut Steps<S>,
    ) -> Turn
    where
        W: Milling<N>,
        ensures share { share.new.parts ≡ share.old.parts }
        ensures kept { W.kept self.new.milling ≡ W.kept self.old.milling }
    {
        post.signals.begin();
        let ready = self.work.ready.as_slice();
        let mut turn = self.milling.mill_all(rt, post, ready, share, steps);
        if turn == Turn::Done {
            turn = try_all(rt, post, self.work.due.as_slice(), share);
        }
        post.signals.rest();
        turn
    }

    /// Takes the work of a phase that was put down.
    fn open(&mut self, signals: &Signals, phase: u64)
        ensures { self.new.milling ≡ self.old.milling }
    {
        self.station.taken = phase;
        if self.station.worker == 0 {
            self.station.opened = self.station.opened.saturating_add(1);
            signals.open(phase);
        }
    }
}

impl<N: RunName, W: Milling<N>> Role<N> for Worker<W> {
    type Kept = W::Kept;

    ghost kept = { λ w. W.kept w.milling };

    ghost may_act = { λ _. Unit {0} };

    fn act<R: Wait, G: Gate, S: Ledger>(
        &mut self,
        rt: &R,
        post: &Post<'_, N, G>,
        share: &mut Share<N>,
        steps: &mut Steps<S>,
    ) -> Turn {
        if post.signals.has_ended() {
            return Turn::Over;
        }
        if !may_look(post, self.station) {
            return Turn::Idle;
        }
        let look = post.hall.lock(rt).look(self.station, &mut self.work);
        match look {
            Ok(Look::Lead(e)) => lead(rt, post, e, share),
            Ok(Look::Share(phase)) => {
                self.open(post.signals, phase);
                self.share_in(rt, post, share, steps)
            }
            Ok(Look::Wait) => Turn::Idle,
            Ok(Look::Over) => Turn::Over,
            Err(_) => give_up(rt, post),
        }
    }
}

/// Does what a role asks until the run is over, or for long there is nothing to do.
fn act_counted<N: RunName, A: Role<N>, R: Wait, G: Gate, S: Ledger>(
    rt: &R,
    post: &Post<'_, N, G>,
    role: &mut A,
    share: &mut Share<N>,
    blank: Blank,
)
    requires name { blank.name ≡ S.name }
    requires parts { blank.parts ≡ S.parts }
    requires some { 0 < S.parts }
    requires may { A.may_act role.old }
    ensures share { share.new.parts ≡ share.old.parts }
    ensures kept { A.kept role.new ≡ A.kept role.old }
{
    let mut steps = Steps::<S>::new(blank);
    let mut idle: u64 = 0;
    for _ in rt.forever() {
        let turn = role.act(rt, post, share, &mut steps);
        match turn {
            Turn::Over => {
                post.signals.end();
                return;
            }
            Turn::Left => return,
            Turn::Done => idle = 0,
            Turn::Idle => {
                if post.signals.is_busy() {
                    idle = 0;
                } else if idle >= post.most_idle() {
                    post.signals.leave();
                    return;
                } else {
                    idle += 1;
                }
                pause(idle);
            }
        }
    }
}

/// Does what a role asks until the run is over, or for long there is nothing to do.
pub fn act<N: RunName, A: Role<N>, R: Wait, G: Gate>(
    rt: &R,
    post: &Post<'_, N, G>,
    role: &mut A,
    share: &mut Share<N>,
)
    requires { A.may_act role.old }
    ensures share { share.new.parts ≡ share.old.parts }
    ensures kept { A.kept role.new ≡ A.kept role.old }
{
    act_counted::<N, A, R, G, Brand>(rt, post, role, share, Blank::new(1));
}

/// Works by hand until the run is over, or for long there is nothing to do.
pub fn work<N: RunName, R: Wait, G: Gate>(rt: &R, post: &Post<'_, N, G>, share: &mut Share<N>)
    ensures { share.new.parts ≡ share.old.parts }
{
    let mut worker = Worker::new(post, ByHand);
    act(rt, post, &mut worker, share);
}

/// One worker's work.
pub fn work_by_hand<N: RunName, R: Wait, G: Gate>(
    rt: &R,
    post: &Post<'_, N, G>,
    hand: Hand<N>,
) -> Hand<N> {
    let mut hand = hand;
    work(rt, post, &mut hand.share);
    hand
}
