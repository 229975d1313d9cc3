//! What workers tell one another beside the lock.
use dpc_lists::faults::NoMemory;
use std::alloc::Global;
use std::sync::atomic::{AtomicBool, AtomicU64, Ordering};

/// Hints of who may look when, so that nobody takes the lock in vain. Nothing is promised of them: the hall decides
/// what happens.
#[derive(Drop)]
pub struct Signals {
    /// The phase whose work may be taken, 0 before the first one.
    opened: AtomicU64,
    /// How often workers did their work of a phase.
    rested: AtomicU64,
    /// How many are at work now.
    busy: AtomicU64,
    /// How many have come.
    come: AtomicU64,
    /// One left who found nothing to do for long.
    left: AtomicBool,
    /// The run is at its end, or does not go on.
    over: AtomicBool,
    /// How many orders each seat of a pool put that are not done.
    out: Vec<AtomicU64>,
    /// How many orders from a pool are milled now.
    milling: AtomicU64,
}

impl Signals {
    /// For workers who mill what is theirs. It takes no memory.
    pub fn new(alloc: Global) -> Signals {
        Signals {
            opened: AtomicU64::new(0),
            rested: AtomicU64::new(0),
            busy: AtomicU64::new(0),
            come: AtomicU64::new(0),
            left: AtomicBool::new(false),
            over: AtomicBool::new(false),
            out: Vec::new(alloc),
            milling: AtomicU64::new(0),
        }
    }

    /// For those who have so many seats of a pool.
    pub fn with_seats(alloc: Global, seats: usize) -> Result<Signals, NoMemory> {
        let mut signals = Signals::new(alloc);
        for _ in 0..seats {
            signals.out.push(AtomicU64::new(0))?;
        }
        Ok(signals)
    }

    /// The work of a phase may be taken.
    pub(crate) fn open(&self, phase: u64) {
        self.opened.store(phase, Ordering::SeqCst);
    }

    /// The phase whose work may be taken.
    pub(crate) fn opened(&self) -> u64 {
        self.opened.load(Ordering::SeqCst)
    }

    /// A worker, or a miller, has come.
    pub(crate) fn come(&self) {
        self.come.fetch_add(1, Ordering::SeqCst);
    }

    /// Whether so many workers have come, and where there is a pool, all who have a seat.
    pub(crate) fn have_come(&self, workers: u64) -> bool {
        self.come.load(Ordering::SeqCst) >= workers.max(self.out.len() as u64)
    }

    /// One leaves who found nothing to do for long.
    pub(crate) fn leave(&self) {
        self.left.store(true, Ordering::SeqCst);
    }

    /// Whether one left.
    pub(crate) fn is_left(&self) -> bool {
        self.left.load(Ordering::SeqCst)
    }

    /// A worker begins to work.
    pub(crate) fn begin(&self) {
        self.busy.fetch_add(1, Ordering::SeqCst);
    }

    /// It has done its work of the phase.
    pub(crate) fn rest(&self) {
        self.busy.fetch_sub(1, Ordering::SeqCst);
        self.rested.fetch_add(1, Ordering::SeqCst);
    }

    /// How often workers did their work of a phase.
    pub(crate) fn rested(&self) -> u64 {
        self.rested.load(Ordering::SeqCst)
    }

    /// Whether anybody is at work.
    pub(crate) fn is_busy(&self) -> bool {
        self.busy.load(Ordering::SeqCst) > 0
    }

    /// All may leave.
    pub fn end(&self) {
        self.over.store(true, Ordering::SeqCst);
    }

    /// Whether all may leave.
    pub fn has_ended(&self) -> bool {
        self.over.load(Ordering::SeqCst)
    }

    /// This seat is about to put an order.
    pub(crate) fn put(&self, seat: u64) {
        if let Some(out) = self.out.get(seat as usize) {
            out.fetch_add(1, Ordering::SeqCst);
        }
    }

    /// An order that this seat put is done, or was not put after all.
    pub(crate) fn done(&self, seat: u64) {
        if let Some(out) = self.out.get(seat as usize) {
            out.fetch_sub(1, Ordering::SeqCst);
        }
    }

    /// Whether each order that this seat put is done.
    pub(crate) fn all_done(&self, seat: u64) -> bool {
        match self.out.get(seat as usize) {
            Some(out) => out.load(Ordering::SeqCst) == 0,
            None => true,
        }
    }

    /// An order from a pool is milled from now on.
    pub(crate) fn begin_milling(&self) {
        self.milling.fetch_add(1, Ordering::SeqCst);
    }

    /// It is no more.
    pub(crate) fn end_milling(&self) {
        self.milling.fetch_sub(1, Ordering::SeqCst);
    }

    /// Whether any order from a pool is milled.
    pub(crate) fn is_milling(&self) -> bool {
        self.milling.load(Ordering::SeqCst) > 0
    }
}
