//! Readers and writers, as the standard streams, whose failed calls are counted.
ghost use Rattle.std.specs.Prelude.{◌≡◌};

use crate::faults::{Failed, FaultCount};
use crate::sink::Sink;
use crate::source::Source;
use std::io::{Read, Write};

/// A reader or a writer, and how many of its calls failed. It tells the bytes that the reader has
/// left, or that the writer holds.
#[derive(Drop)]
pub struct Counted<T> {
    stream: T,
    faults: FaultCount,
}

impl<T> Counted<T> {
    /// The stream without a fault so far.
    pub fn new(stream: T) -> Counted<T>
        ensures stream { result.stream ≡ stream }
        ensures faults { result.faults ≡ 0 }
    {
        Counted {
            stream,
            faults: FaultCount::new(),
        }
    }
}

impl<R: Read> Source for Counted<R> {
    ghost edge = { λ s. record { bytes = R.remaining s.stream; faults = s.faults } };

    fn read(&mut self, buffer: &mut [u8]) -> Result<usize, Failed> {
        match self.stream.read(buffer) {
            Ok(n) => Ok(n),
            Err(_) => Err(self.faults.raise()),
        }
    }
}

impl<W: Write> Sink for Counted<W> {
    ghost edge = { λ s. record { bytes = W.contents s.stream; faults = s.faults } };

    fn write(&mut self, piece: &[u8]) -> Result<usize, Failed> {
        match self.stream.write(piece) {
            // A write that takes nothing of a piece would be made again for ever.
            Ok(n) if n > 0 || piece.is_empty() => Ok(n),
            _ => Err(self.faults.raise()),
        }
    }
}
