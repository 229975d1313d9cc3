//! A disk in memory that fails at chosen calls.
ghost use Rattle.std.specs.Prelude.{◌≡◌, ◌<◌, ◌≤◌, ◌+◌, length, not, Bool};
ghost use Rattle.disk_model.specs.Disk.{MayLeave};
ghost use Rattle.disk_model.specs.Paging.{image_of};
ghost use Rattle.disk_model.specs.Calls.{history_of, AreMarked};

use crate::call::{Call, Kind};
use crate::disk::{Disk, DiskStop};
use crate::pages::Pages;
use std::alloc::AllocError;
use std::snapshot::Snapshot;

/// A disk of `size` bytes that reads as zeros where nothing was written. It fails at the calls of read, write and
/// sync whose numbers, from 0 on, are in `fails`, and at no others; a call that finds no memory has no number.
/// A call costs what it reads or writes. Only pages that were written take memory, and each call the room of a `Call`.
#[derive(Drop)]
pub struct MemDisk {
    size: u64,
    fails: Vec<u64>,
    calls: Vec<Call>,
    pages: Pages,
    ghost marked: { AreMarked fails.items calls.items },
    ghost kept: { MayLeave (history_of calls.items).now (image_of pages.map) },
}

impl MemDisk {
    ghost use Rattle.std.specs.Prelude.{OnOk, OnErr, [], ◌∷◌, ◌++◌, if◌then◌else◌};
    ghost use Rattle.disk_model.specs.Calls.{is_listed, faults_of, one_more};
    ghost use Rattle.disk_model.specs.Recording.{IsOfNow};

    /// A disk of zeros.
    pub fn new(size: u64, fails: Vec<u64>) -> MemDisk
        ensures size { result.size ≡ size }
        ensures fails { result.fails ≡ fails }
        ensures calls { result.calls.items ≡ [] }
        ensures zeros { image_of result.pages.map ≡ (λ _. 0) }
    {
        let calls = Vec::new(*fails.allocator());
        let pages = Pages::new(*fails.allocator());
        MemDisk {
            size,
            fails,
            calls,
            pages,
        }
    }

    /// Its calls so far, without those that found no memory.
    pub fn calls(&self) -> &[Call]
        ensures calls { result.now ≡ self.now.calls.items }
        ensures marked { AreMarked self.now.fails.items result.now }
    {
        self.calls.as_slice()
    }

    // Whether the next call is one that fails.
    fn fails_next(&self) -> bool
        ensures { result ≡ is_listed self.now.fails.items (length self.now.calls.items) }
    {
        let number = self.calls.len() as u64;
        self.fails.iter().any(|listed| *listed == number)
    }

    // Puts a call on record.
    fn record(&mut self, kind: Kind, done: bool) -> Result<(), AllocError>
        requires of_now { IsOfNow kind self.old.pages }
        requires listed { done ≡ not (is_listed self.old.fails.items (length self.old.calls.items)) }
        ensures ok { OnOk result (self.new.calls.items ≡ self.old.calls.items ++ record { kind = kind; done = done } ∷ []) }
        ensures history { OnOk result (history_of self.new.calls.items ≡ one_more (history_of self.old.calls.items) kind done) }
        ensures faults { OnOk result (faults_of self.new.calls.items ≡ faults_of self.old.calls.items + (if done then 0 else 1)) }
        ensures err { OnErr result (self.new.calls.items ≡ self.old.calls.items) }
        ensures size { self.new.size ≡ self.old.size }
        ensures fails { self.new.fails ≡ self.old.fails }
        ensures pages { self.new.pages ≡ self.old.pages }
    {
        self.calls.push(Call { kind, done })?;
        Ok(())
    }
}

impl Disk for MemDisk {
    ghost use Rattle.std.specs.Prelude.{OnOk, OnErr, ⊤};
    ghost use Rattle.disk_model.specs.Disk.{part, Holds, HasCause, GoesOn, settled, loosened, after};
    ghost use Rattle.disk_model.specs.Calls.{faults_of};
    ghost use Rattle.disk_model.specs.Recorded.{IsAnswered, IsSyncAnswered};
    ghost use Rattle.disk_model.specs.declared.call.Kind.TheVariants.{Read, Write};

    ghost extent = { λ m. m.size };

    ghost seen = { λ m. image_of m.pages.map };

    ghost history = { λ m. history_of m.calls.items };

    ghost faults = { λ m. faults_of m.calls.items };

    ghost is_honest = { λ _. ⊤ };

    ghost stays = { λ m _. m.kept };

    fn size(&self) -> u64 {
        self.size
    }

    fn read(&mut self, at: u64, buf: &mut [u8]) -> Result<(), DiskStop>
        requires { at + length buf.old ≤ self.old.size }
        ensures extent { self.new.size ≡ self.old.size }
        ensures cause { HasCause (faults_of self.old.calls.items) (faults_of self.new.calls.items) result }
        ensures bytes { OnOk result (buf.new ≡ part (image_of self.old.pages.map) at (length buf.old)) }
        ensures seen { image_of self.new.pages.map ≡ image_of self.old.pages.map }
        ensures crash { let h = history_of self.old.calls.items in GoesOn h h.now (history_of self.new.calls.items) }
        ensures fails { self.new.fails ≡ self.old.fails }
        ensures answer { IsAnswered self.old self.new (Read at (length buf.old)) result }
    {
        // Each place on the disk is a u64.
        let _size = self.size;
        let count = buf.len() as u64;
        if self.fails_next() {
            self.record(Kind::Read(at, count), false)?;
            return Err(DiskStop::Failed);
        }
        self.record(Kind::Read(at, count), true)?;
        self.pages.get(at, buf);
        Ok(())
    }

    fn write(&mut self, at: u64, bytes: &[u8]) -> Result<(), DiskStop>
        requires { at + length bytes.now ≤ self.old.size }
        ensures extent { self.new.size ≡ self.old.size }
        ensures cause { HasCause (faults_of self.old.calls.items) (faults_of self.new.calls.items) result }
        ensures written { OnOk result (Holds (image_of self.old.pages.map) at bytes.now (image_of self.new.pages.map)) }
        ensures crash { let h = history_of self.old.calls.items in GoesOn h (loosened at (length bytes.now) h.now) (history_of self.new.calls.items) }
        ensures not_written { OnErr result (image_of self.new.pages.map ≡ image_of self.old.pages.map) }
        ensures fails { self.new.fails ≡ self.old.fails }
        ensures answer { IsAnswered self.old self.new (Write at (length bytes.now)) result }
    {
        // Each place on the disk is a u64.
        let _size = self.size;
        let count = bytes.len() as u64;
        if self.fails_next() {
            self.record(Kind::Write(at, count), false)?;
            return Err(DiskStop::Failed);
        }
        let alloc = *self.fails.allocator();
        self.pages.prepare(alloc, at, count)?;
        self.record(Kind::Write(at, count), true)?;
        self.pages.put(at, bytes);
        Ok(())
    }

    fn sync(&mut self) -> Result<(), DiskStop>
        ensures extent { self.new.size ≡ self.old.size }
        ensures cause { HasCause (faults_of self.old.calls.items) (faults_of self.new.calls.items) result }
        ensures seen { image_of self.new.pages.map ≡ image_of self.old.pages.map }
        ensures synced { let h = history_of self.old.calls.items in OnOk result (history_of self.new.calls.items ≡ after (settled (image_of self.old.pages.map)) h) }
        ensures crash { let h = history_of self.old.calls.items in OnErr result (GoesOn h h.now (history_of self.new.calls.items)) }
        ensures fails { self.new.fails ≡ self.old.fails }
        ensures answer { IsSyncAnswered self.old self.new result }
    {
        let seen = Snapshot::of(&self.pages);
        if self.fails_next() {
            self.record(Kind::Sync(seen), false)?;
            return Err(DiskStop::Failed);
        }
        self.record(Kind::Sync(seen), true)?;
        Ok(())
    }
}
