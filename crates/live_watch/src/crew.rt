//! Those who work for a run that is watched, and those who watch.
ghost use Rattle.std.specs.Prelude.{◌≡◌, ◌<◌, ◌^◌};
ghost use Rattle.law_fit.specs.Fits.{CanRun};

use crate::telling::Announcer;
use client_views::seat::Seat;
use core::mem::replace_with;
use dpc_edge::gate::Gate;
use event_shares::names::RunName;
use event_shares::share::Share;
use live_view::names::ViewName;
use node_threads::hall::Hall;
use node_threads::hand::{give_share, take_share};
use node_threads::milling::ByHand;
use node_threads::post::Post;
use node_threads::seats::AtSeat;
use node_threads::signals::Signals;
use node_threads::turn::pause;
use node_threads::worker::{Worker, act};
use std::alloc::Global;
use std::sync::{Mutex, Wait};

/// How often a reader looks at most. Where no thread can be started it has to leave.
const MOST_LOOKS: u64 = 1_000_000;

/// The first `workers` make a run's events and tell what clients take, and the others watch.
#[derive(Drop)]
pub(crate) struct Crew<'a, N: RunName, R, G> {
    pub rt: &'a R,
    pub alloc: Global,
    pub signals: &'a Signals,
    pub gate: &'a G,
    /// Where each worker takes a share, and puts it back.
    pub shares: &'a Mutex<Share<N>>,
    pub workers: usize,
}

impl<N: RunName + ViewName, R: Wait, G: Gate> Crew<'_, N, R, G> {
    /// Works until the run is over, or for long there is nothing to do, and tells what the clients of this seat take.
    fn work(&self, hall: &Mutex<Hall<N>>, worker: u64, seat: Seat<N>) -> Seat<N>
        requires run { CanRun N.script.plan × (N.plan ≡ N.script.plan) }
        requires parts { N.parts < 2 ^ 64 }
        ensures { result ≡ seat }
    {
        let Some(mut share) = take_share(self.rt, self.shares) else {
            return seat;
        };
        let post = Post {
            alloc: self.alloc,
            hall,
            signals: self.signals,
            gate: self.gate,
            worker,
            workers: self.workers as u64,
        };
        let worker = Worker::new(&post, ByHand);
        let mut announcer = Announcer { worker, seat };
        act(self.rt, &post, &mut announcer, &mut share);
        give_share(self.rt, self.shares, share);
        let Announcer { worker: _, seat } = announcer;
        seat
    }

    /// Looks until the run is over, once more behind that, or until it looked often.
    fn watch(&self, reader: u64, seat: &mut Seat<N>)
        ensures { seat.new ≡ seat.old }
    {
        let mut idle: u64 = 0;
        for _ in 0..MOST_LOOKS {
            let over = self.signals.has_ended();
            match seat.look(self.rt, self.alloc) {
                Ok(true) => idle = 0,
                Ok(false) => idle = idle.saturating_add(1),
                Err(_) => return,
            }
            self.gate.at_look(reader);
            if over {
                return;
            }
            pause(idle);
        }
    }
}

/// The place of a worker's seat in a run.
#[derive(Drop)]
struct Chair<'a, N: RunName, R, G> {
    crew: &'a Crew<'a, N, R, G>,
    hall: &'a Mutex<Hall<N>>,
    place: u64,
}

/// What a worker does at a seat.
fn served<N: RunName + ViewName, R: Wait, G: Gate>(
    seat: Seat<N>,
    chair: Chair<'_, N, R, G>,
) -> (Seat<N>, ())
    requires run { CanRun N.script.plan × (N.plan ≡ N.script.plan) }
    requires parts { N.parts < 2 ^ 64 }
    ensures { result.0 ≡ seat }
{
    (chair.crew.work(chair.hall, chair.place, seat), ())
}

impl<N: RunName + ViewName, R: Wait, G: Gate> AtSeat<Hall<N>, (), Seat<N>> for Crew<'_, N, R, G> {
    ghost fits = { λ _ _. CanRun N.script.plan × (N.plan ≡ N.script.plan) × (N.parts < 2 ^ 64) };

    ghost stays = { λ _ seat after. after ≡ seat };

    fn sit(&self, shared: &Mutex<Hall<N>>, _pool: &(), place: usize, seat: &mut Seat<N>) {
        if place < self.workers {
            let chair = Chair {
                crew: self,
                hall: shared,
                place: place as u64,
            };
            replace_with(seat, chair, served::<N, R, G>);
        } else {
            self.watch((place - self.workers) as u64, seat);
        }
    }
}
