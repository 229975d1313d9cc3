//! The failure-free output of a plan: the definition as a plain program over whole lists.
#![tactic(auto)]

ghost use Rattle.std.specs.Prelude.{◌≡◌, [], map, IfOk, All};
ghost use Rattle.dpc_lists.specs.Lists.{nth};
ghost use Rattle.dpc_model.specs.Streams.{InOrder};
ghost use Rattle.dpc_model.specs.Operators.{output_of};
ghost use Rattle.dpc_model.specs.Fragments.{IsSound, IsSoundKind, AreSoundOps, serial, read_wire, fragment_value, stream_upto, ideal_upto};

pub mod operators;
pub mod sound;
pub mod windows;

use dpc_lists::exact::Exact;
use dpc_lists::faults::NoMemory;
use dpc_lists::lists::Listed;
use dpc_model::operators::{OpKind, OpSpec, Wire};
use dpc_model::plans::{Plan, StreamRef};
use dpc_model::tuples::{Tuple, Tuples};
use std::alloc::Global;

/// The list of this number, and none where there is none.
fn numbered(lists: &[Tuples], number: u64) -> &[Tuple]
    ensures { result.now ≡ nth [] lists.now number }
{
    match lists.get(number as usize) {
        Some(list) => list.as_slice(),
        None => &[],
    }
}

/// A copy of tuples.
fn copied(alloc: Global, tuples: &[Tuple]) -> Result<Tuples, NoMemory>
    ensures { IfOk result (λ out. out ≡ tuples.now) }
{
    let mut out = Vec::with_capacity(alloc, tuples.len())?;
    for tuple in tuples {
        out.push(tuple.copy(alloc)?)?;
    }
    Ok(Listed::from_vec(out))
}

/// The output of an operator whose inputs are known up to b.
fn output(alloc: Global, kind: &OpKind, inputs: &[Tuples], b: u64) -> Result<Tuples, NoMemory>
    requires { IsSoundKind kind.now }
    ensures { IfOk result (λ out. out ≡ output_of kind.now inputs.now b) }
{
    let first = numbered(inputs, 0);
    match kind {
        OpKind::Filter(test) => operators::filter(alloc, test, first),
        OpKind::Map(exprs) => operators::map(alloc, exprs.as_slice(), first),
        OpKind::Union => operators::union(alloc, inputs),
        OpKind::Join(within, keys) => {
            operators::join(alloc, *within, keys.as_slice(), first, numbered(inputs, 1))
        }
        OpKind::Aggregate(size, step, group, aggs) => {
            windows::aggregate(alloc, *size, *step, *group, aggs.as_slice(), first, b)
        }
    }
}

/// What a wire of an operator carries, where the ports carry `ports` and the operators before it gave
/// `outputs`.
fn carried<'a>(ports: &'a [Tuples], outputs: &'a [Tuples], wire: Wire) -> &'a [Tuple]
    requires { All InOrder ports.now }
    ensures { result.now ≡ read_wire (serial ports.now) outputs.now wire }
{
    match wire {
        Wire::Port(p) => numbered(ports, p),
        Wire::Op(i) => numbered(outputs, i),
    }
}

/// What the wires of an operator carry, where the ports carry `ports` and the operators before it gave
/// `outputs`.
fn read(
    alloc: Global,
    ports: &[Tuples],
    outputs: &[Tuples],
    wires: &[Wire],
) -> Result<Vec<Tuples>, NoMemory>
    requires { All InOrder ports.now }
    ensures { IfOk result (λ inputs. inputs.items ≡ map (read_wire (serial ports.now) outputs.now) wires.now) }
{
    let mut inputs = Vec::with_capacity(alloc, wires.len())?;
    for wire in wires {
        inputs.push(copied(alloc, carried(ports, outputs, *wire))?)?;
    }
    Ok(inputs)
}

/// The value of a fragment whose ports carry these streams, known up to b.
fn fragment(alloc: Global, ops: &[OpSpec], ports: &[Tuples], b: u64) -> Result<Tuples, NoMemory>
    requires sound { AreSoundOps ops.now }
    requires ordered { All InOrder ports.now }
    ensures { IfOk result (λ out. out ≡ fragment_value ops.now (serial ports.now) b) }
{
    let mut outputs = Vec::with_capacity(alloc, ops.len())?;
    for op in ops {
        let inputs = read(alloc, ports, outputs.as_slice(), op.reads.as_slice())?;
        let out = output(alloc, &op.kind, inputs.as_slice(), b)?;
        outputs.push(out)?;
    }
    match outputs.pop() {
        Some(last) => Ok(last),
        None => Ok(Listed::from_vec(Vec::new(alloc))),
    }
}

/// A stream up to b, where the fragments' streams up to b are those listed.
fn upto(
    alloc: Global,
    plan: &Plan,
    b: u64,
    frags: &[Tuples],
    stream: StreamRef,
) -> Result<Tuples, NoMemory>
    ensures { IfOk result (λ out. out ≡ stream_upto plan.now b frags.now stream) }
{
    match stream {
        StreamRef::Source(s) => match plan.sources.as_slice().get(s as usize) {
            Some(source) => operators::cut(alloc, source.log.as_slice(), b),
            None => Ok(Listed::from_vec(Vec::new(alloc))),
        },
        StreamRef::Frag(f) => copied(alloc, numbered(frags, f)),
    }
}

/// The streams up to b, in order.
fn all_upto(
    alloc: Global,
    plan: &Plan,
    b: u64,
    frags: &[Tuples],
    streams: &[StreamRef],
) -> Result<Vec<Tuples>, NoMemory>
    ensures { IfOk result (λ out. out.items ≡ map (stream_upto plan.now b frags.now) streams.now) }
{
    let mut out = Vec::with_capacity(alloc, streams.len())?;
    for stream in streams {
        out.push(upto(alloc, plan, b, frags, *stream)?)?;
    }
    Ok(out)
}

/// The failure-free output of a stream of a checked plan up to the time b.
pub fn ideal(alloc: Global, plan: &Plan, stream: StreamRef, b: u64) -> Result<Tuples, NoMemory>
    requires { IsSound plan.now }
    ensures { IfOk result (λ out. out ≡ ideal_upto plan.now stream b) }
{
    let mut frags = Vec::with_capacity(alloc, plan.frags.len())?;
    for frag in plan.frags.as_slice() {
        let ports = all_upto(alloc, plan, b, frags.as_slice(), frag.inputs.as_slice())?;
        let value = fragment(alloc, frag.ops.as_slice(), ports.as_slice(), b)?;
        frags.push(value)?;
    }
    upto(alloc, plan, b, frags.as_slice(), stream)
}
