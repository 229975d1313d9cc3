//! Bytes that are read from the front.
ghost use Rattle.std.specs.Prelude.{◌≡◌, ◌==◌, length};
ghost use Rattle.snapshot_form.specs.Reading.{number_at, tuple_in, tuple_at, many_at, counted_at, total_at};
ghost use Rattle.snapshot_reader.specs.Told.{IsRead};

use crate::faults::ReadFault;
use crate::forms::Form;
use byteorder::{BigEndian, ByteOrder};
use dpc_lists::lists::Listed;
use dpc_model::tuples::{Item, Tuple};
use std::alloc::Global;
use std::marker::Model;
use stream_codec::decoding::decode;
use stream_codec::faults::DecodeFault;
use stream_codec::frames::Frame;

/// The bytes that are not read yet. Contracts see a list of bytes. An error leaves it at some place of them.
#[derive(Drop)]
pub(crate) struct Bytes<'a> {
    rest: &'a [u8],
}

impl<'a> Model for Bytes<'a> {
    ghost use Rattle.std.specs.Prelude.{List, ℕ};

    ghost Value = { List ℕ };

    ghost view = { λ b. b.rest.now };
}

/// The tuple of a frame that has a tuple alone.
fn tuple_of(frame: Frame) -> Option<Tuple>
    ensures { result ≡ tuple_in frame }
{
    match frame {
        Frame::Item(Item::Tentative(tuple)) => Some(tuple),
        _ => None,
    }
}

impl<'a> Bytes<'a> {
    /// All of these bytes.
    pub(crate) fn new(bytes: &'a [u8]) -> Bytes<'a>
        ensures { result ≡ bytes.now }
    {
        Bytes { rest: bytes }
    }

    /// Whether no byte is left.
    pub(crate) fn is_at_end(&self) -> bool
        ensures { result ≡ (length self.now == 0) }
    {
        self.rest.is_empty()
    }

    /// A byte.
    pub(crate) fn byte(&mut self) -> Result<u8, ReadFault>
        ensures { IsRead (number_at 1 self.old) result self.new }
    {
        let front = self.rest;
        if front.len() < 1 {
            return Err(ReadFault::NoReading);
        }
        self.rest = front.split_at(1).1;
        Ok(front[0])
    }

    /// A count of four bytes, the highest first.
    pub(crate) fn count(&mut self) -> Result<u32, ReadFault>
        ensures { IsRead (number_at 4 self.old) result self.new }
    {
        let front = self.rest;
        if front.len() < 4 {
            return Err(ReadFault::NoReading);
        }
        self.rest = front.split_at(4).1;
        Ok(BigEndian::read_u32(front))
    }

    /// A number of eight bytes, the highest first.
    pub(crate) fn number(&mut self) -> Result<u64, ReadFault>
        ensures { IsRead (number_at 8 self.old) result self.new }
    {
        let front = self.rest;
        if front.len() < 8 {
            return Err(ReadFault::NoReading);
        }
        self.rest = front.split_at(8).1;
        Ok(BigEndian::read_u64(front))
    }

    /// A total of sixteen bytes, two's complement, the highest first.
    pub(crate) fn total(&mut self) -> Result<i128, ReadFault>
        ensures { IsRead (total_at self.old) result self.new }
    {
        let front = self.rest;
        if front.len() < 16 {
            return Err(ReadFault::NoReading);
        }
        self.rest = front.split_at(16).1;
        Ok(BigEndian::read_u128(front).cast_signed())
    }

    /// The tuple of a frame.
    pub(crate) fn tuple(&mut self, alloc: Global) -> Result<Tuple, ReadFault>
        ensures { IsRead (tuple_at self.old) result self.new }
    {
        let front = self.rest;
        match decode(alloc, front) {
            Ok((frame, taken)) => match tuple_of(frame) {
                Some(tuple) => {
                    self.rest = front.split_at(taken).1;
                    Ok(tuple)
                }
                None => Err(ReadFault::NoReading),
            },
            Err(DecodeFault::NoMemory) => Err(ReadFault::NoMemory),
            Err(_) => Err(ReadFault::NoReading),
        }
    }

    /// So many of a form, one behind another. The count may be any number: memory is taken for what stands there alone.
    pub(crate) fn many<T: Drop, F: Form<T>>(
        &mut self,
        alloc: Global,
        form: &F,
        count: usize,
    ) -> Result<Listed<T>, ReadFault>
        ensures { IsRead (many_at (F.at form.now) count self.old) result self.new }
    {
        let mut parts = Vec::new(alloc);
        for _index in 0..count {
            let part = form.read(alloc, self)?;
            let Ok(()) = parts.push(part) else {
                return Err(ReadFault::NoMemory);
            };
        }
        Ok(Listed::from_vec(parts))
    }

    /// As many of a form as a count of four bytes says.
    pub(crate) fn counted<T: Drop, F: Form<T>>(
        &mut self,
        alloc: Global,
        form: &F,
    ) -> Result<Listed<T>, ReadFault>
        ensures { IsRead (counted_at (F.at form.now) self.old) result self.new }
    {
        let count = self.count()?;
        self.many(alloc, form, count as usize)
    }
}
