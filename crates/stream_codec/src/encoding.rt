//! The bytes of a frame.
ghost use Rattle.std.specs.Prelude.{◌≡◌, ◌+◌, ◌*◌, ◌≤◌, ◌++◌, ◌∷◌, [], IfOk, OnOk, length, if◌then◌else◌};
ghost use Rattle.byteorder.specs.Endian.{big_bytes};
ghost use Rattle.dpc_model.specs.declared.tuples.Item.{Item};
ghost use Rattle.stream_codec.specs.Kinds.{fields, has_columns};
ghost use Rattle.stream_codec.specs.Frames as spec;
ghost use Rattle.stream_codec.specs.declared.frames.Frame.TheVariants as frame;

use crate::frames::Frame;
use crate::kinds::{Field, Kind, VALUE_WIDTH};
use byteorder::{BigEndian, ByteOrder};
use dpc_lists::faults::NoMemory;
use dpc_model::messages::Event;
use dpc_model::tuples::{Item, Tuple};
use std::alloc::Global;

/// The lowest bytes of a number, so many of them.
fn put_number(bytes: &mut Vec<u8>, width: usize, number: u64) -> Result<(), NoMemory>
    requires { width ≤ 8 }
    ensures { OnOk result (bytes.new.items ≡ bytes.old.items ++ big_bytes width number) }
{
    let mut all = [0u8; 8];
    BigEndian::write_u64(&mut all, number);
    bytes.extend_from_slice(&all[8 - width..])?;
    Ok(())
}

/// The numbers of the fields.
fn put_numbers(bytes: &mut Vec<u8>, fields: &[Field], numbers: &[u64]) -> Result<(), NoMemory>
    ensures { OnOk result (bytes.new.items ≡ bytes.old.items ++ spec.number_bytes fields.now numbers.now) }
{
    for i in 0..fields.len().min(numbers.len()) {
        put_number(bytes, fields[i].width(), numbers[i])?;
    }
    Ok(())
}

/// The count of columns and the values.
fn put_columns(bytes: &mut Vec<u8>, values: &[i64]) -> Result<(), NoMemory>
    ensures { OnOk result (bytes.new.items ≡ bytes.old.items ++ big_bytes 1 (length values.now) ++ spec.value_bytes values.now) }
{
    put_number(bytes, 1, values.len() as u64)?;
    for value in values {
        put_number(bytes, VALUE_WIDTH, value.cast_unsigned())?;
    }
    Ok(())
}

/// How many bytes follow the length.
fn body_length(kind: Kind, values: &[i64]) -> u64
    ensures { result ≡ spec.fixed_length kind + (if has_columns kind then 8 * length values.now else 0) }
{
    let mut length = kind.fixed_length();
    if kind.has_columns() {
        length += VALUE_WIDTH * values.len();
    }
    length as u64
}

/// A frame of these parts.
fn put_parts(
    bytes: &mut Vec<u8>,
    kind: Kind,
    numbers: &[u64],
    values: &[i64],
) -> Result<(), NoMemory>
    requires { length numbers.now ≡ length (fields kind) }
    ensures { OnOk result (bytes.new.items ≡ bytes.old.items ++ spec.bytes_of_parts kind numbers.now values.now) }
{
    bytes.push(kind.byte())?;
    put_number(bytes, 4, body_length(kind, values))?;
    put_numbers(bytes, kind.fields(), numbers)?;
    if kind.has_columns() {
        put_columns(bytes, values)?;
    }
    Ok(())
}

/// An entry's frame of an actor's number and one more.
fn put_pair(bytes: &mut Vec<u8>, kind: Kind, actor: u32, number: u64) -> Result<(), NoMemory>
    requires { length (fields kind) ≡ 2 }
    ensures { OnOk result (bytes.new.items ≡ bytes.old.items ++ spec.bytes_of_parts kind (actor ∷ number ∷ []) []) }
{
    put_parts(bytes, kind, &[u64::from(actor), number], &[])
}

/// The frame of a tuple alone, which is that of the tuple as a tentative item.
#[tactic(auto, unfolding(crate::specs::Frames::frame_bytes))]
pub fn put_tuple(bytes: &mut Vec<u8>, tuple: &Tuple) -> Result<(), NoMemory>
    ensures { OnOk result (bytes.new.items ≡ bytes.old.items ++ spec.tuple_bytes tuple.now) }
{
    let values = tuple.vals.as_slice();
    put_parts(bytes, Kind::Tentative, &[tuple.stime], values)
}

/// How many bytes the frame of a tuple alone has.
#[tactic(auto, unfolding(crate::specs::Frames::frame_bytes))]
pub fn tuple_length(tuple: &Tuple) -> u64
    ensures { result ≡ length (spec.tuple_bytes tuple.now) }
{
    5 + body_length(Kind::Tentative, tuple.vals.as_slice())
}

/// An item's frame. A number that is wider than its field leaves its lowest bytes there.
#[tactic(auto, unfolding(crate::specs::Frames::frame_bytes))]
pub fn put_item(bytes: &mut Vec<u8>, item: &Item) -> Result<(), NoMemory>
    ensures { OnOk result (bytes.new.items ≡ bytes.old.items ++ spec.frame_bytes (frame.Item item.now)) }
{
    match item {
        Item::Stable(number, tuple) => {
            let values = tuple.vals.as_slice();
            put_parts(bytes, Kind::Stable, &[*number, tuple.stime], values)
        }
        Item::Tentative(tuple) => put_tuple(bytes, tuple),
        Item::Passed(upto) => put_parts(bytes, Kind::Passed, &[*upto], &[]),
        Item::Boundary(bound, count) => put_parts(bytes, Kind::Boundary, &[*bound, *count], &[]),
        Item::Undo(number) => put_parts(bytes, Kind::Undo, &[*number], &[]),
        Item::RecDone => put_parts(bytes, Kind::RecDone, &[], &[]),
    }
}

/// The frame of a journal's entry.
#[tactic(auto, unfolding(crate::specs::Frames::frame_bytes))]
pub fn put_entry(bytes: &mut Vec<u8>, event: Event) -> Result<(), NoMemory>
    ensures { OnOk result (bytes.new.items ≡ bytes.old.items ++ spec.frame_bytes (frame.Entry event)) }
{
    match event {
        Event::Phase(phase) => put_parts(bytes, Kind::Phase, &[phase], &[]),
        Event::Emit(source, time) => put_pair(bytes, Kind::Emit, source, time),
        Event::Release(source, time) => put_pair(bytes, Kind::Release, source, time),
        Event::Cut(from, to) => put_pair(bytes, Kind::Cut, from, u64::from(to)),
        Event::Heal(from, to) => put_pair(bytes, Kind::Heal, from, u64::from(to)),
        Event::Crash(node) => put_parts(bytes, Kind::Crash, &[u64::from(node)], &[]),
        Event::Restart(node, incarnation) => put_pair(bytes, Kind::Restart, node, incarnation),
        Event::Deliver(envelope) => put_parts(bytes, Kind::Deliver, &[envelope], &[]),
        Event::Tick(actor, clock) => put_pair(bytes, Kind::Tick, actor, clock),
        Event::Mill(node, buckets) => put_pair(bytes, Kind::Mill, node, buckets),
    }
}

/// The frame in front of a client's items.
#[tactic(auto, unfolding(crate::specs::Frames::frame_bytes))]
pub fn put_head(bytes: &mut Vec<u8>, client: u64) -> Result<(), NoMemory>
    ensures { OnOk result (bytes.new.items ≡ bytes.old.items ++ spec.frame_bytes (frame.Head client)) }
{
    put_parts(bytes, Kind::Head, &[client], &[])
}

/// The frame behind a client's items.
#[tactic(auto, unfolding(crate::specs::Frames::frame_bytes))]
pub fn put_tail(
    bytes: &mut Vec<u8>,
    stable: u64,
    bound: u64,
    tentative: u64,
) -> Result<(), NoMemory>
    ensures { OnOk result (bytes.new.items ≡ bytes.old.items ++ spec.frame_bytes (frame.Tail stable bound tentative)) }
{
    put_parts(bytes, Kind::Tail, &[stable, bound, tentative], &[])
}

/// Any frame.
pub fn put_frame(bytes: &mut Vec<u8>, frame: &Frame) -> Result<(), NoMemory>
    ensures { OnOk result (bytes.new.items ≡ bytes.old.items ++ spec.frame_bytes frame.now) }
{
    match frame {
        Frame::Item(item) => put_item(bytes, item),
        Frame::Head(client) => put_head(bytes, *client),
        Frame::Tail {
            stable,
            bound,
            tentative,
        } => put_tail(bytes, *stable, *bound, *tentative),
        Frame::Entry(event) => put_entry(bytes, *event),
    }
}

/// The bytes of a frame. The only error is want of memory. A number that is wider than its field leaves its lowest
/// bytes there, and is not read back (`laws`).
pub fn encode(alloc: Global, frame: &Frame) -> Result<Vec<u8>, NoMemory>
    ensures { IfOk result (λ bytes. bytes.items ≡ spec.frame_bytes frame.now) }
{
    let mut bytes = Vec::new(alloc);
    put_frame(&mut bytes, frame)?;
    Ok(bytes)
}
