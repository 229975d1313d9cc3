//! The bytes of a disk in memory, by pages: only what was written takes memory.
ghost use Rattle.std.specs.Prelude.{◌≡◌, ◌≤◌, ◌<◌, ◌+◌, ◌-◌, ◌/◌, ◌^◌, ℕ, Vec, length, slice_index, IsSome, IfOk, OnOk, Some, min, take, replicate};
ghost use Rattle.std.specs.BTreeMap.{get};
ghost use Rattle.std.specs.Ordering.{nat_cmp};
ghost use Rattle.std.specs.declared.alloc.Global.{Global};
ghost use Rattle.disk_model.specs.Disk.{part, Holds};
ghost use Rattle.disk_model.specs.Paging.{ArePages, HasPage, HasPages, image_of};

use std::alloc::{AllocError, Global};
use std::collections::BTreeMap;

/// How many bytes a page has.
pub const PAGE: u64 = 4096;

/// Zeros, but for the pages that are there, each under its number.
#[derive(Drop)]
pub struct Pages {
    map: BTreeMap<u64, Vec<u8>>,
    ghost whole: { ArePages map },
}

// Puts the source over what stands from a place on.
fn overwrite(target: &mut [u8], from: usize, source: &[u8])
    requires { from + length source.now ≤ length target.old }
    ensures { Holds (slice_index target.old) from source.now (slice_index target.new) }
{
    target[from..from + source.len()].copy_from_slice(source);
}

// Puts so many bytes of the source, from a place of it on, over what stands from a place on.
fn copy_part(target: &mut [u8], to: usize, source: &[u8], from: usize, count: usize)
    requires within { from + count ≤ length source.now }
    requires fits { to + count ≤ length target.old }
    ensures { Holds (slice_index target.old) to (part (slice_index source.now) from count) (slice_index target.new) }
{
    let behind = source.split_at(from).1;
    let piece = behind.split_at(count).0;
    overwrite(target, to, piece);
}

// Puts so many zeros over what stands from a place on.
fn wipe(target: &mut [u8], from: usize, count: usize)
    requires { from + count ≤ length target.old }
    ensures { Holds (slice_index target.old) from (replicate count 0) (slice_index target.new) }
{
    target[from..from + count].fill(0);
}

// A page that was never written.
fn zeros(alloc: Global, count: u64) -> Result<Vec<u8>, AllocError>
    ensures many { IfOk result (λ zeros. length zeros.items ≡ count) }
    ensures zero { IfOk result (λ zeros. (k : ℕ) → slice_index zeros.items k ≡ 0) }
{
    Ok(vec![in alloc; 0; count as usize]?)
}

impl Pages {
    /// Zeros everywhere.
    pub fn new(alloc: Global) -> Pages
        ensures { image_of result.map ≡ (λ _. 0) }
    {
        Pages {
            map: BTreeMap::new(alloc),
        }
    }

    // The page is there from now on, and nothing reads otherwise.
    fn add(&mut self, alloc: Global, number: u64) -> Result<(), AllocError>
        ensures image { image_of self.new.map ≡ image_of self.old.map }
        ensures there { OnOk result (HasPage self.new.map number) }
        ensures keeps { (q : ℕ) → HasPage self.old.map q → HasPage self.new.map q }
    {
        if self.map.contains_key(&number) {
            return Ok(());
        }
        let page = zeros(alloc, PAGE)?;
        self.map.insert(number, page)?;
        Ok(())
    }

    /// Makes room for so many bytes from a place on. Nothing reads otherwise, also where memory is wanted.
    pub fn prepare(&mut self, alloc: Global, at: u64, count: u64) -> Result<(), AllocError>
        requires { at + count < 2 ^ 64 }
        ensures image { image_of self.new.map ≡ image_of self.old.map }
        ensures there { OnOk result (HasPages self.new.map at count) }
    {
        if count == 0 {
            return Ok(());
        }
        for number in at / PAGE..(at + (count - 1)) / PAGE + 1 {
            self.add(alloc, number)?;
        }
        Ok(())
    }

    // Writes what goes into the first page, and tells how much that was.
    fn put_part(&mut self, place: u64, bytes: &[u8]) -> usize
        requires some { 0 < length bytes.now }
        requires there { HasPage self.old.map (place / 4096) }
        ensures some { 0 < result }
        ensures within { result ≤ length bytes.now }
        ensures image { Holds (image_of self.old.map) place (take result bytes.now) (image_of self.new.map) }
        ensures keeps { (q : ℕ) → HasPage self.old.map q → HasPage self.new.map q }
    {
        let from = (place % PAGE) as usize;
        let count = bytes.len().min(PAGE as usize - from);
        if let Some(page) = self.map.get_mut(&(place / PAGE)) {
            overwrite(page, from, &bytes[..count]);
        }
        count
    }

    /// Writes where there is room.
    pub fn put(&mut self, at: u64, bytes: &[u8])
        requires fits { at + length bytes.now < 2 ^ 64 }
        requires there { HasPages self.old.map at (length bytes.now) }
        ensures { Holds (image_of self.old.map) at bytes.now (image_of self.new.map) }
    {
        let mut done = 0;
        while done < bytes.len() {
            let rest = bytes.split_at(done).1;
            done += self.put_part(at + done as u64, rest);
        }
    }

    // Reads what is in the first page, and tells up to where the buffer is filled.
    fn get_part(&self, place: u64, buf: &mut [u8], done: usize) -> usize
        requires some { done < length buf.old }
        ensures more { done < result }
        ensures within { result ≤ length buf.old }
        ensures part { Holds (slice_index buf.old) done (part (image_of self.now.map) place (result - done)) (slice_index buf.new) }
    {
        let from = (place % PAGE) as usize;
        let count = (buf.len() - done).min(PAGE as usize - from);
        match self.map.get(&(place / PAGE)) {
            Some(page) => {
                copy_part(buf, done, page.as_slice(), from, count);
                done + count
            }
            None => {
                wipe(buf, done, count);
                done + count
            }
        }
    }

    /// Fills the buffer with the bytes from a place on.
    pub fn get(&self, at: u64, buf: &mut [u8])
        requires { at + length buf.old < 2 ^ 64 }
        ensures { buf.new ≡ part (image_of self.now.map) at (length buf.old) }
    {
        let mut done = 0;
        while done < buf.len() {
            done = self.get_part(at + done as u64, buf, done);
        }
    }
}
