//! Two nodes whose orders wait for one another: only who mills both at the same time goes on.
ghost use Rattle.std.specs.Prelude.{◌≤◌};
ghost use Rattle.live_commands.specs.Endings.{IsFew};

use dpc_edge::gate::Gate;
use dpc_lists::faults::NoMemory;
use input_parts::notation::Notation;
use live_commands::answer;
use live_commands::beside::Beside;
use live_commands::outcome::Outcome;
use std::alloc::Global;
use std::sync::Wait;
use std::sync::atomic::{AtomicBool, Ordering};
use std::thread;
use std::thread::Threads;

/// Two fragments of one replica each read a source: it is actor 0, their nodes are 1 and 2, the clients 3 and 4.
pub(crate) const SCRIPT: &str =
    "borealis 1\nwidth 10\ndelay 50\nend 10\nsource a 1\nlog a 1 10\nfragment f 1 a\nfilter k a 1\nfragment g 1 a\nfilter h a 1\nclient c f\nclient d g\nbegin\nrelease a 10\ntick 1\nsettle\n";

/// What stands behind the journal, whatever that is.
const REPORT: &str =
    "journal end\nclient c\nstable 0 1 10\nboundary 10 1\nsummary c stable 1 bound 10 tentative 0 settled\nclient d\nstable 0 1 10\nboundary 10 1\nsummary d stable 1 bound 10 tentative 0 settled\n";

/// More bytes than the script has.
pub(crate) const MOST_BYTES: usize = 4096;

/// How often a miller looks for the other one, and yields.
pub(crate) const MOST_TURNS: u64 = 1_000_000;

/// How some meetings went.
#[derive(Clone, Copy, PartialEq, Eq)]
pub enum Meetings {
    All,
    /// One came, and the other did not come meanwhile.
    Missed,
    /// A run ended otherwise.
    Broken,
}

/// Waits until another one came: false where it did not come meanwhile.
pub(crate) fn comes(other: &AtomicBool) -> bool {
    for _ in 0..MOST_TURNS {
        if other.load(Ordering::SeqCst) {
            return true;
        }
        thread::yield_now();
    }
    false
}

/// Where the millers of the two nodes wait for one another.
#[derive(Drop)]
pub(crate) struct Meeting {
    first: AtomicBool,
    second: AtomicBool,
    pub missed: AtomicBool,
}

impl Meeting {
    pub fn new() -> Meeting {
        Meeting {
            first: AtomicBool::new(false),
            second: AtomicBool::new(false),
            missed: AtomicBool::new(false),
        }
    }

    /// Comes, and waits until the other one came.
    fn wait(&self, own: &AtomicBool, other: &AtomicBool) {
        own.store(true, Ordering::SeqCst);
        if !comes(other) {
            self.missed.store(true, Ordering::SeqCst);
        }
    }
}

impl Gate for Meeting {
    fn at_mill(&self, node: u64) {
        match node {
            1 => self.wait(&self.first, &self.second),
            2 => self.wait(&self.second, &self.first),
            _ => {}
        }
    }

    fn at_event(&self, _actor: u64) {}

    fn at_look(&self, _reader: u64) {}
}

/// One run whose nodes wait for one another.
fn meet<R: Threads + Wait + Sync>(
    rt: &R,
    alloc: Global,
    workers: u64,
    beside: Beside,
) -> Result<Meetings, NoMemory>
    requires workers { (1 ≤ workers) × (workers ≤ 16) }
    requires beside { IsFew beside }
{
    let gate = Meeting::new();
    let script = SCRIPT.as_bytes().to_vec(alloc)?;
    if script.len() > MOST_BYTES {
        return Ok(Meetings::Broken);
    }
    let Outcome::Text(text) = answer(rt, alloc, Notation::Lines, script, workers, beside, &gate)?
    else {
        return Ok(Meetings::Broken);
    };
    if !text.ends_with(REPORT.as_bytes()) {
        return Ok(Meetings::Broken);
    }
    if gate.missed.load(Ordering::SeqCst) {
        return Ok(Meetings::Missed);
    }
    Ok(Meetings::All)
}

/// So many runs, one behind the other.
pub fn meet_often<R: Threads + Wait + Sync>(
    rt: &R,
    alloc: Global,
    workers: u64,
    beside: Beside,
    rounds: u64,
) -> Meetings
    requires workers { (1 ≤ workers) × (workers ≤ 16) }
    requires beside { IsFew beside }
{
    for _ in 0..rounds {
        match meet(rt, alloc, workers, beside) {
            Ok(Meetings::All) => {}
            Ok(other) => return other,
            Err(_) => return Meetings::Broken,
        }
    }
    Meetings::All
}
