//! Work of several threads, each at a seat of its own.
ghost use Rattle.std.specs.Prelude.{◌≡◌, ℕ, ◌<◌, length, slice_index_or};

use std::sync::Mutex;
use std::thread;
use std::thread::Threads;

/// What is done at each of some seats. `P` is what all have before them beside the lock.
pub trait AtSeat<H, P, T> {
    /// What a seat has to be.
    ghost fits: { P → T → Type 0 };

    /// What it then is, beside what it was.
    ghost stays: { P → T → T → Type 0 };

    /// Does the work of the seat at this place.
    fn sit(&self, shared: &Mutex<H>, pool: &P, place: usize, seat: &mut T)
        requires { fits pool.now seat.old }
        ensures { stays pool.now seat.old seat.new };
}

/// Does the work of each seat in a thread of its own, where one can be started. All share what stands behind the lock.
pub fn at_seats<H: Send, P: Sync, T: Send, R: Threads + Sync, W: AtSeat<H, P, T> + Sync>(
    rt: &R,
    shared: &Mutex<H>,
    pool: &P,
    seats: &mut [T],
    crew: &W,
)
    requires { (i : ℕ) (d : T) → i < length seats.old → W.fits pool.now (slice_index_or seats.old i d) }
    ensures long { length seats.new ≡ length seats.old }
    ensures each { (i : ℕ) (d : T) → i < length seats.old → W.stays pool.now (slice_index_or seats.old i d) (slice_index_or seats.new i d) }
{
    let threads = seats.len().max(1);
    thread::for_each_mut(
        rt,
        seats,
        threads,
        &|place: usize, seat: &mut T|
            requires { W.fits pool.now seat.now }
            ensures { W.stays pool.entry.now seat.entry.now seat.exit.now }
        { crew.sit(shared, pool, place, seat) },
    );
}
