//! A source and a sink in memory, which fail at the calls that a test lists. Calls are numbered from
//! 0; from the greatest `u64` on they share that number.
ghost use Rattle.std.specs.Prelude.{[], ◌≡◌, ◌+◌, ◌-◌, ◌<◌, ◌≤◌, ◌⊎◌, ◌++◌, length, take, drop, min, IfOk, OnErr, Contains, ◌↔◌, IsErr};
ghost use Rattle.dpc_edge.specs.Faults.{one_more};
ghost use Rattle.dpc_edge.specs.Edges.{Gave, Took, Fails};
ghost use Rattle.dpc_edge.specs.Memory.{giving_from, giving_edge, taking_into, taking_edge};

use crate::faults::{Failed, FaultCount};
use crate::sink::Sink;
use crate::source::Source;
use std::marker::Model;

/// Gives bytes from memory. Contracts see a `Giving`.
#[derive(Drop)]
pub struct MemSource {
    bytes: Vec<u8>,
    next: usize,
    piece: u64,
    fails: Vec<u64>,
    calls: u64,
    faults: FaultCount,
}

impl Model for MemSource {
    ghost use Rattle.std.specs.Prelude.{◌<◌, ◌≤◌, drop, vec_len};
    ghost use Rattle.dpc_edge.specs.Memory.{Giving};

    ghost Value = { Giving };

    ghost view = { λ s. record {
      left = drop s.next s.bytes.items;
      piece = s.piece;
      fails = s.fails.items;
      calls = s.calls;
      faults = s.faults;
    } };

    ghost invariant = { λ s. (s.next ≤ vec_len s.bytes) × (0 < s.piece) };
}

impl MemSource {
    /// A source of these bytes. A call gives at most `piece` of them, and the calls whose numbers
    /// are in `fails` fail.
    pub fn new(bytes: Vec<u8>, piece: u64, fails: Vec<u64>) -> MemSource
        requires { 0 < piece }
        ensures { result ≡ giving_from bytes.items piece fails.items }
    {
        MemSource {
            bytes,
            next: 0,
            piece,
            fails,
            calls: 0,
            faults: FaultCount::new(),
        }
    }
}

impl Source for MemSource {
    ghost edge = { giving_edge };

    fn read(&mut self, buffer: &mut [u8]) -> Result<usize, Failed>
        ensures bound { IfOk result (λ n. n ≤ length buffer.new) }
        ensures gave { IfOk result (λ n. Gave (giving_edge self.old) (giving_edge self.new) (take n buffer.new)) }
        ensures end { result ≡ Ok 0 → 0 < length buffer.new → self.new.left ≡ [] }
        ensures failed { OnErr result (Fails (giving_edge self.old) (giving_edge self.new)) }

        // Just the calls that are listed fail, and the others give as much as they can.
        ensures listed { IsErr result ↔ Contains self.old.fails self.old.calls }
        ensures count { IfOk result (λ n. n ≡ min self.old.piece (min (length buffer.new) (length self.old.left))) }
        ensures calls { self.new.calls ≡ one_more self.old.calls }
        ensures raised { OnErr result (self.new.faults ≡ one_more self.old.faults) }
        ensures made { (self.new.piece ≡ self.old.piece) × (self.new.fails ≡ self.old.fails) }
    {
        let call = self.calls;
        self.calls = call.saturating_add(1);
        if self.fails.contains(&call) {
            return Err(self.faults.raise());
        }
        let given = front_copied(buffer, &self.bytes.as_slice()[self.next..], self.piece);
        self.next += given;
        Ok(given)
    }
}

/// Takes bytes into memory. Contracts see a `Taking`.
#[derive(Drop)]
pub struct MemSink {
    room: Vec<u8>,
    filled: usize,
    piece: u64,
    fails: Vec<u64>,
    calls: u64,
    faults: FaultCount,
}

impl Model for MemSink {
    ghost use Rattle.std.specs.Prelude.{◌<◌, ◌≤◌, ◌-◌, take, vec_len};
    ghost use Rattle.dpc_edge.specs.Memory.{Taking};

    ghost Value = { Taking };

    ghost view = { λ s. record {
      taken = take s.filled s.room.items;
      space = vec_len s.room - s.filled;
      piece = s.piece;
      fails = s.fails.items;
      calls = s.calls;
      faults = s.faults;
    } };

    ghost invariant = { λ s. (s.filled ≤ vec_len s.room) × (0 < s.piece) };
}

impl MemSink {
    /// A sink that takes as many bytes as `room` is long, at most `piece` a call. The calls whose
    /// numbers are in `fails` fail, and so does each call with a piece that is not empty once the
    /// room is full.
    pub fn new(room: Vec<u8>, piece: u64, fails: Vec<u64>) -> MemSink
        requires { 0 < piece }
        ensures { result ≡ taking_into (length room.items) piece fails.items }
    {
        MemSink {
            room,
            filled: 0,
            piece,
            fails,
            calls: 0,
            faults: FaultCount::new(),
        }
    }

    /// What was taken.
    pub fn bytes(&self) -> &[u8]
        ensures { result.now ≡ self.now.taken }
    {
        &self.room.as_slice()[..self.filled]
    }
}

impl Sink for MemSink {
    ghost edge = { taking_edge };

    fn write(&mut self, piece: &[u8]) -> Result<usize, Failed>
        ensures bound { IfOk result (λ n. n ≤ length piece.now) }
        ensures some { IfOk result (λ n. 0 < length piece.now → 0 < n) }
        ensures took { IfOk result (λ n. Took (taking_edge self.old) (taking_edge self.new) (take n piece.now)) }
        ensures failed { OnErr result (Fails (taking_edge self.old) (taking_edge self.new)) }

        // Just the calls that are listed fail, and those that find no room; the others take what they can.
        ensures listed { IsErr result ↔ (Contains self.old.fails self.old.calls ⊎ ((self.old.space ≡ 0) × (0 < length piece.now))) }
        ensures count { IfOk result (λ n. n ≡ min self.old.piece (min (length piece.now) self.old.space)) }
        ensures space { IfOk result (λ n. self.old.space ≡ n + self.new.space) }
        ensures full { OnErr result (self.new.space ≡ self.old.space) }
        ensures calls { self.new.calls ≡ one_more self.old.calls }
        ensures raised { OnErr result (self.new.faults ≡ one_more self.old.faults) }
        ensures made { (self.new.piece ≡ self.old.piece) × (self.new.fails ≡ self.old.fails) }
    {
        let call = self.calls;
        self.calls = call.saturating_add(1);
        let is_full = self.filled == self.room.len() && !piece.is_empty();
        if is_full || self.fails.contains(&call) {
            return Err(self.faults.raise());
        }
        let taken = stored(&mut self.room, self.filled, piece, self.piece);
        self.filled += taken;
        Ok(taken)
    }
}

/// Copies the first bytes to the front of a buffer, at most `piece` of them, and answers how many.
fn front_copied(buffer: &mut [u8], bytes: &[u8], piece: u64) -> usize
    requires { 0 < piece }
    ensures count { result ≡ min piece (min (length buffer.new) (length bytes.now)) }
    ensures front { take result buffer.new ≡ take result bytes.now }
{
    let most = buffer.len().min(bytes.len()) as u64;
    let count = piece.min(most) as usize;
    let front = &mut buffer[..count];
    front.copy_from_slice(&bytes[..count]);
    count
}

/// Copies the first bytes of a piece behind those that fill the room, at most `most` of them, and
/// answers how many.
fn stored(room: &mut [u8], filled: usize, piece: &[u8], most: u64) -> usize
    requires filled { filled ≤ length room.old }
    requires most { 0 < most }
    ensures count { result ≡ min most (min (length piece.now) (length room.old - filled)) }
    ensures stored { take (filled + result) room.new ≡ take filled room.old ++ take result piece.now }
{
    front_copied(&mut room[filled..], piece, most)
}
