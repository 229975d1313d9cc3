//! A disk that keeps each write that it was given, and what a crash may leave of it.
use disk_model::disk::{Disk, DiskStop};
use std::alloc::{AllocError, Global};

/// How many bytes it has.
pub(crate) const SIZE: u64 = 256;

/// What was asked of it.
#[derive(Drop)]
pub(crate) enum Step {
    Write(u64, Vec<u8>),
    Sync,
}

/// Nothing is proved of it but that it is safe: it isn't said to be honest.
#[derive(Drop)]
pub(crate) struct Taped {
    pub(crate) bytes: Vec<u8>,
    pub(crate) steps: Vec<Step>,
}

impl Disk for Taped {
    ghost use Rattle.std.specs.Prelude.{length, []};
    ghost use Rattle.disk_model.specs.Disk.{settled};

    ghost extent = { λ taped. length taped.bytes.items };

    ghost seen = { λ _ _. 0 };

    ghost history = { λ _. record { now = settled (λ _. 0); past = [] } };

    ghost faults = { λ _. 0 };

    ghost is_honest = { λ _. ⊥ };

    ghost stays = { λ _ never. absurd never };

    fn size(&self) -> u64 {
        self.bytes.len() as u64
    }

    fn read(&mut self, at: u64, buf: &mut [u8]) -> Result<(), DiskStop> {
        let from = at as usize;
        buf.copy_from_slice(&self.bytes[from..from + buf.len()]);
        Ok(())
    }

    fn write(&mut self, at: u64, bytes: &[u8]) -> Result<(), DiskStop> {
        let alloc = *self.bytes.allocator();
        self.steps.push(Step::Write(at, bytes.to_vec(alloc)?))?;
        put(&mut self.bytes, at, bytes, 3);
        Ok(())
    }

    fn sync(&mut self) -> Result<(), DiskStop> {
        self.steps.push(Step::Sync)?;
        Ok(())
    }
}

/// Puts nothing, the first half, the second half or all of the bytes, by the last two bits of the choice.
fn put(image: &mut [u8], at: u64, bytes: &[u8], choice: u64) {
    let half = bytes.len() / 2;
    for i in 0..bytes.len() {
        let chosen = if i < half {
            choice % 2 == 1
        } else {
            choice / 2 % 2 == 1
        };
        let place = at.saturating_add(i as u64) as usize;
        if chosen && place < image.len() {
            image[place] = bytes[i];
        }
    }
}

/// How many of the first steps the last sync among them made last.
fn last_synced(steps: &[Step]) -> usize {
    let mut last = 0;
    for i in 0..steps.len() {
        if let Step::Sync = steps[i] {
            last = i + 1;
        }
    }
    last
}

/// What a crash behind these steps leaves by a choice of two bits for each write that is loose; and what is left of the
/// choice.
pub(crate) fn torn(
    alloc: Global,
    steps: &[Step],
    choice: u64,
) -> Result<(Vec<u8>, u64), AllocError> {
    let mut image = vec![in alloc; 0; SIZE as usize]?;
    let last = last_synced(steps);
    let mut left = choice;
    for i in 0..steps.len() {
        if let Step::Write(at, bytes) = &steps[i] {
            if i < last {
                put(&mut image, *at, bytes, 3);
            } else {
                put(&mut image, *at, bytes, left % 4);
                left = left / 4;
            }
        }
    }
    Ok((image, left))
}
