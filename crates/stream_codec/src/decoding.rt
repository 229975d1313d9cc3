//! The frame that stands in front of bytes.
ghost use Rattle.std.specs.Prelude.{◌≡◌, ◌≤◌, ◌<◌, ◌*◌, ◌==◌, true, length, slice_index, drop, IfOk, MatchResult};
ghost use Rattle.byteorder.specs.Endian.{big_number};
ghost use Rattle.stream_codec.specs.Frames as spec;
ghost use Rattle.stream_codec.specs.Kinds.{width, fields};

use crate::faults::DecodeFault;
use crate::frames::Frame;
use crate::kinds::{Field, Kind, MOST_FIELDS, VALUE_WIDTH};
use byteorder::{BigEndian, ByteOrder};
use dpc_lists::faults::NoMemory;
use dpc_model::messages::Event;
use dpc_model::tuples::{Item, Tuple, Vals};
use std::alloc::Global;

/// How many bytes stand in front of the fields: the kind and the length.
const FIELDS_AT: usize = 5;

/// The bytes from a place on.
fn behind(bytes: &[u8], place: usize) -> &[u8]
    requires { place ≤ length bytes.now }
    ensures { result.now ≡ drop place bytes.now }
{
    &bytes[place..]
}

/// The number in a field at the front of bytes.
fn read_number(field: Field, bytes: &[u8]) -> u64
    requires { width field ≤ length bytes.now }
    ensures { result ≡ big_number (width field) bytes.now }
{
    match field.width() {
        8 => BigEndian::read_u64(bytes),
        2 => u64::from(BigEndian::read_u16(bytes)),
        _ => u64::from(bytes[0]),
    }
}

/// The numbers in the fields, or the first that is out of its range.
fn read_numbers(fields: &[Field], body: &[u8]) -> Result<[u64; MOST_FIELDS], DecodeFault>
    requires few { length fields.now ≤ MOST_FIELDS }
    requires whole { spec.widths fields.now ≤ length body.now }
    ensures { MatchResult result (λ numbers. spec.AreNumbers fields.now body.now numbers) (λ e. spec.IsBadField fields.now body.now e) }
{
    let mut numbers = [0; MOST_FIELDS];
    let mut place = 0;
    for i in 0..fields.len() {
        let field = fields[i];
        let number = read_number(field, behind(body, place));
        if !field.holds(number) {
            return Err(DecodeFault::BadValue((FIELDS_AT + place) as u64));
        }
        numbers[i] = number;
        place += field.width();
    }
    Ok(numbers)
}

/// So many values.
fn read_values(alloc: Global, count: usize, bytes: &[u8]) -> Result<Vals, NoMemory>
    requires { 8 * count ≤ length bytes.now }
    ensures { IfOk result (λ values. values ≡ spec.values_at count bytes.now) }
{
    let mut values = Vals::with_capacity(alloc, count)?;
    for i in 0..count {
        values.push(BigEndian::read_i64(behind(bytes, VALUE_WIDTH * i)))?;
    }
    Ok(values)
}

/// Whether the byte at a place is this count.
fn has_count(body: &[u8], place: usize, count: usize) -> bool
    requires { place < length body.now }
    ensures { result ≡ (slice_index body.now place == count) }
{
    usize::from(body[place]) == count
}

/// The values behind the fields, if the count in front of them is the one that the length says.
fn read_columns(alloc: Global, kind: Kind, size: usize, body: &[u8]) -> Result<Vals, DecodeFault>
    requires fits { spec.may_have_length kind size ≡ true }
    requires whole { size ≤ length body.now }
    ensures { MatchResult result (λ values. spec.AreColumns kind size body.now values) (λ e. spec.IsBadCount kind size body.now e) }
{
    if !kind.has_columns() {
        return Ok(Vals::new(alloc));
    }
    let place = kind.fields_length();
    let count = (size - place - 1) / VALUE_WIDTH;
    if !has_count(body, place, count) {
        return Err(DecodeFault::BadValue((FIELDS_AT + place) as u64));
    }
    Ok(read_values(alloc, count, behind(body, place + 1))?)
}

/// The frame of a kind with these numbers and values.
fn frame_of(kind: Kind, numbers: [u64; MOST_FIELDS], vals: Vals) -> Frame
    requires { spec.all_hold (fields kind) numbers ≡ true }
    ensures { result ≡ spec.frame_of kind numbers vals }
{
    let [first, second, third] = numbers;
    match kind {
        Kind::Stable => Frame::Item(Item::Stable(
            first,
            Tuple {
                stime: second,
                vals,
            },
        )),
        Kind::Tentative => Frame::Item(Item::Tentative(Tuple { stime: first, vals })),
        Kind::Boundary => Frame::Item(Item::Boundary(first, second)),
        Kind::Undo => Frame::Item(Item::Undo(first)),
        Kind::RecDone => Frame::Item(Item::RecDone),
        Kind::Passed => Frame::Item(Item::Passed(first)),
        Kind::Head => Frame::Head(first),
        Kind::Tail => Frame::Tail {
            stable: first,
            bound: second,
            tentative: third,
        },
        Kind::Phase => Frame::Entry(Event::Phase(first)),
        Kind::Deliver => Frame::Entry(Event::Deliver(first)),
        Kind::Tick => Frame::Entry(Event::Tick(first as u32, second)),
        Kind::Mill => Frame::Entry(Event::Mill(first as u32, second)),
        Kind::Cut => Frame::Entry(Event::Cut(first as u32, second as u32)),
        Kind::Heal => Frame::Entry(Event::Heal(first as u32, second as u32)),
        Kind::Crash => Frame::Entry(Event::Crash(first as u32)),
        Kind::Restart => Frame::Entry(Event::Restart(first as u32, second)),
        Kind::Emit => Frame::Entry(Event::Emit(first as u32, second)),
        Kind::Release => Frame::Entry(Event::Release(first as u32, second)),
    }
}

/// The frame of a kind, whose fields and columns stand in front and have this length.
fn decode_body(
    alloc: Global,
    kind: Kind,
    size: usize,
    body: &[u8],
) -> Result<(Frame, usize), DecodeFault>
    requires fits { spec.may_have_length kind size ≡ true }
    requires whole { size ≤ length body.now }
    ensures { spec.IsDecoding (spec.decoded_body kind size body.now) result }
{
    let numbers = read_numbers(kind.fields(), body)?;
    let values = read_columns(alloc, kind, size, body)?;
    Ok((frame_of(kind, numbers, values), FIELDS_AT + size))
}

/// The frame of a kind, where the bytes behind its length are to be so many.
fn decode_rest(
    alloc: Global,
    kind: Kind,
    size: usize,
    rest: &[u8],
) -> Result<(Frame, usize), DecodeFault>
    ensures { spec.IsDecoding (spec.decoded_rest kind size rest.now) result }
{
    if !kind.may_have_length(size) {
        return Err(DecodeFault::BadLength(size as u64));
    }
    if rest.len() < size {
        return Err(DecodeFault::Short);
    }
    decode_body(alloc, kind, size, rest)
}

/// The frame with which the bytes begin, and how many bytes it has, whatever follows. Of several faults the first is
/// told in this order: the kind, the length, bytes that are missing, and the first field that is out of its range.
/// Want of memory is told only where there is a frame. It takes memory only for a tuple of more values than a tuple
/// holds in itself.
#[tactic(auto, unfolding(crate::specs::Frames::decoded))]
pub fn decode(alloc: Global, input: &[u8]) -> Result<(Frame, usize), DecodeFault>
    ensures { spec.IsDecoding (spec.decoded input.now) result }
{
    if input.is_empty() {
        return Err(DecodeFault::Short);
    }
    let byte = input[0];
    let Some(kind) = Kind::of(byte) else {
        return Err(DecodeFault::BadKind(byte));
    };
    let rest = behind(input, 1);
    if rest.len() < 4 {
        return Err(DecodeFault::Short);
    }
    let size = BigEndian::read_u32(rest);
    decode_rest(alloc, kind, size as usize, behind(rest, 4))
}
