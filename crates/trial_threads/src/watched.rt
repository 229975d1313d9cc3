//! A reader of what a client takes, beside the workers of a run, and while its lock is held.
ghost use Rattle.std.specs.Prelude.{◌≡◌};
ghost use Rattle.law_fit.specs.Fits.{CanRun};

use crate::meeting::{MOST_BYTES, Meetings, comes};
use client_views::opening::{close, open};
use client_views::seat::Seat;
use diagram_reader::read_script;
use dpc_edge::gate::Gate;
use dpc_lists::faults::NoMemory;
use dpc_model::scripts::Script;
use event_shares::names::RunName;
use input_parts::notation::Notation;
use live_commands::answer;
use live_commands::beside::Beside;
use live_commands::outcome::Outcome;
use live_view::names::ViewName;
use node_threads::hall::Hall;
use node_threads::seats::{AtSeat, at_seats};
use std::alloc::Global;
use std::marker::Brand;
use std::sync::atomic::{AtomicBool, Ordering};
use std::sync::ledger::Blank;
use std::sync::{Mutex, Wait};
use std::thread::Threads;

/// Sources a and b are actors 0 and 1, their node is 2, the client 3. For a while the node does without b.
const SCRIPT: &str =
    "borealis 1\nwidth 10\ndelay 5\nend 20\nsource a 1\nlog a 1 10\nlog a 11 11\nsource b 1\nlog b 4 20\nlog b 13 21\nfragment f 1 a b\nunion u a b\nclient c f\nbegin\nrelease a 10\nrelease b 10\ntick 1\ntick 2\ncut b f.0\nrelease a 20\nrelease b 20\ntick 3\ntick 4\ntick 8\nheal b f.0\ntick 9\nsettle\n";

/// What the run ends with.
const LAST: &str = "watch 0 c stable 4 bound 20\n";

/// The client.
const CLIENT: u64 = 3;

/// Where the events of the client and the looks of the first reader wait for one another.
#[derive(Drop)]
struct Looked {
    at_event: AtomicBool,
    at_look: AtomicBool,
    missed: AtomicBool,
}

impl Looked {
    fn new() -> Looked {
        Looked {
            at_event: AtomicBool::new(false),
            at_look: AtomicBool::new(false),
            missed: AtomicBool::new(false),
        }
    }

    /// Comes, and waits until the other one came.
    fn wait(&self, own: &AtomicBool, other: &AtomicBool) {
        own.store(true, Ordering::SeqCst);
        if !comes(other) {
            self.missed.store(true, Ordering::SeqCst);
        }
    }
}

impl Gate for Looked {
    fn at_mill(&self, _node: u64) {}

    fn at_event(&self, actor: u64) {
        if actor == CLIENT {
            self.wait(&self.at_event, &self.at_look);
        }
    }

    fn at_look(&self, reader: u64) {
        if reader == 0 {
            self.wait(&self.at_look, &self.at_event);
        }
    }
}

/// One run whose client and reader wait for one another.
fn watch<R: Threads + Wait + Sync>(rt: &R, alloc: Global) -> Result<Meetings, NoMemory> {
    let gate = Looked::new();
    let script = SCRIPT.as_bytes().to_vec(alloc)?;
    if script.len() > MOST_BYTES {
        return Ok(Meetings::Broken);
    }
    let told = answer(
        rt,
        alloc,
        Notation::Lines,
        script,
        2,
        Beside::Readers(1),
        &gate,
    )?;
    let Outcome::Text(text) = told else {
        return Ok(Meetings::Broken);
    };
    if !text.ends_with(LAST.as_bytes()) {
        return Ok(Meetings::Broken);
    }
    Ok(if gate.missed.load(Ordering::SeqCst) {
        Meetings::Missed
    } else {
        Meetings::All
    })
}

/// Runs so often, until a run is not as it should be.
pub fn watch_often<R: Threads + Wait + Sync>(rt: &R, alloc: Global, rounds: u64) -> Meetings {
    for _ in 0..rounds {
        match watch(rt, alloc) {
            Ok(Meetings::All) => {}
            Ok(other) => return other,
            Err(_) => return Meetings::Broken,
        }
    }
    Meetings::All
}

/// One holds the lock of a run until another has looked.
#[derive(Drop)]
struct Locked<'a, R> {
    rt: &'a R,
    alloc: Global,
    locked: AtomicBool,
    looked: AtomicBool,
    both: AtomicBool,
}

impl<N: RunName + ViewName, R: Wait> AtSeat<Hall<N>, (), Seat<N>> for Locked<'_, R> {
    ghost fits = { λ _ _. Unit {0} };

    ghost stays = { λ _ _ _. Unit {0} };

    fn sit(&self, shared: &Mutex<Hall<N>>, _pool: &(), place: usize, seat: &mut Seat<N>) {
        if place == 0 {
            let hall = shared.lock(self.rt);
            self.locked.store(true, Ordering::SeqCst);
            if comes(&self.looked) && !hall.is_spent() {
                self.both.store(true, Ordering::SeqCst);
            }
        } else if comes(&self.locked) && seat.look(self.rt, self.alloc).is_ok() {
            self.looked.store(true, Ordering::SeqCst);
        }
    }
}

/// Whether a look at these seats returns while another thread holds the lock of a run.
fn looks_in<N: RunName + ViewName + Send + Sync, R: Threads + Wait + Sync>(
    rt: &R,
    alloc: Global,
    hall: Hall<N>,
    seats: &mut [Seat<N>],
) -> bool {
    let crew = Locked {
        rt,
        alloc,
        locked: AtomicBool::new(false),
        looked: AtomicBool::new(false),
        both: AtomicBool::new(false),
    };
    let lock = Mutex::new(hall);
    at_seats(rt, &lock, &(), seats, &crew);
    crew.both.load(Ordering::SeqCst)
}

/// The same of the run of a script.
fn looks_at<N: RunName + ViewName + Send + Sync, R: Threads + Wait + Sync>(
    rt: &R,
    alloc: Global,
    script: Script,
    blank: Blank,
    seats: &mut [Seat<N>],
) -> Result<bool, NoMemory>
    requires can { CanRun script.plan }
    requires script { N.script ≡ script }
    requires name { blank.name ≡ N.name }
    requires parts { blank.parts ≡ N.parts }
    requires cut { blank.parts ≡ 64 }
{
    let (hall, _share) = Hall::<N>::new(alloc, script, blank)?;
    Ok(looks_in(rt, alloc, hall, seats))
}

/// The same with seats at its clients.
fn looks_of<N: RunName + ViewName + Send + Sync, R: Threads + Wait + Sync>(
    rt: &R,
    alloc: Global,
    script: Script,
    blank: Blank,
) -> Result<bool, NoMemory>
    requires can { CanRun script.plan }
    requires script { N.script ≡ script }
    requires plan { N.plan ≡ script.plan }
    requires name { blank.name ≡ N.name }
    requires parts { blank.parts ≡ N.parts }
    requires cut { blank.parts ≡ 64 }
{
    let mut seats = open::<N, R>(rt, alloc, &script.plan, CLIENT, 1, 1)?;
    let looks = looks_at(rt, alloc, script, blank, seats.as_mut_slice());
    close(rt, seats);
    looks
}

/// Whether a look returns while another thread holds the lock of a run. None: there was no memory.
pub fn looks_beside_lock<R: Threads + Wait + Sync>(rt: &R, alloc: Global) -> Option<bool> {
    let Ok(script) = read_script(alloc, SCRIPT.as_bytes()) else {
        return None;
    };
    looks_of::<Brand, R>(rt, alloc, script, Blank::new(64)).ok()
}
