//! The tuples of one bucket, port by port.
ghost use Rattle.std.specs.Prelude.{◌≡◌, ◌+◌, ◌*◌, ◌^◌, ◌<◌, ◌++◌, map, OnOk, IfOk};
ghost use Rattle.dpc_model.specs.Streams.{InOrder};
ghost use Rattle.dpc_model.specs.Operators.{between};
ghost use Rattle.dpc_model.specs.Fragments.{tag, tagged_from, serial};
ghost use Rattle.sunion.specs.Ports.{bucket_of, KeptInOrder};

use dpc_lists::exact::Exact;
use dpc_lists::faults::NoMemory;
use dpc_model::streams::count_below;
use dpc_model::tuples::{Tagged, Tuple};
use inlet::inlet::Inlet;
use std::alloc::Global;

/// Appends those of the tuples that lie from one time on and below another.
fn push_tentative(
    alloc: Global,
    tagged: &mut Vec<Tagged>,
    port: u64,
    tuples: &[Tuple],
    from: u64,
    upto: u64,
) -> Result<(), NoMemory>
    ensures { OnOk result (tagged.new.items ≡ tagged.old.items ++ map (tag port) (between from upto tuples.now)) }
{
    for tuple in tuples {
        if from <= tuple.stime && tuple.stime < upto {
            let tuple = tuple.copy(alloc)?;
            tagged.push(Tagged { port, tuple })?;
        }
    }
    Ok(())
}

/// Of tuples in order of time those that lie from one time on and below another.
fn part(tuples: &[Tuple], from: u64, upto: u64) -> &[Tuple]
    requires { InOrder tuples.now }
    ensures { between from upto result.now ≡ between from upto tuples.now }
{
    let rest = &tuples[count_below(tuples, from)..];
    &rest[..count_below(rest, upto)]
}

/// The tentative tuples of a port, or a part of them that has all from one time on and below another.
fn tentative_part(inlet: &Inlet, from: u64, upto: u64) -> &[Tuple]
    ensures { between from upto result.now ≡ between from upto inlet.now.state.held.tentative }
{
    if inlet.is_tentative_in_order() {
        part(inlet.tentative(), from, upto)
    } else {
        inlet.tentative()
    }
}

/// The tuples of bucket k, in order of time, port and place.
pub fn bucket(alloc: Global, ports: &[Inlet], width: u64, k: u64) -> Result<Vec<Tagged>, NoMemory>
    requires width { 0 < width }
    requires range { (k + 1) * width < 2 ^ 64 }
    ensures { IfOk result (λ tagged. KeptInOrder ports.now → tagged.items ≡ serial (bucket_of width k ports.now)) }
{
    let (from, upto) = (k * width, (k + 1) * width);
    let mut tagged = Vec::new(alloc);
    for (port, inlet) in ports.iter().enumerate() {
        let kept = inlet.kept();
        kept.push_between(alloc, &mut tagged, port as u64, from, upto)?;
        let tentative = tentative_part(inlet, from, upto);
        push_tentative(alloc, &mut tagged, port as u64, tentative, from, upto)?;
    }
    tagged.sort_by_key(|tagged| tagged.tuple.stime)?;
    Ok(tagged)
}
