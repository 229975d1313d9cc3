//! A fragment over whole streams, bucket by bucket.
ghost use Rattle.std.specs.Prelude.{◌≤◌, length};

use dpc_lists::exact::Exact;
use dpc_lists::faults::NoMemory;
use dpc_model::engines::{Engine, fits_bucket};
use dpc_model::faults::StepFault;
use dpc_model::plans::Plan;
use dpc_model::tuples::{Tagged, Tuple};
use fragment_mill::mill::FragMill;
use std::alloc::{AllocError, AllocFailed, Global};
use trial_ideal::sound::is_sound;

/// Why a plan could not be milled.
#[derive(Clone, Copy, PartialEq, Eq, Debug)]
pub enum Trouble {
    NoMemory,
    /// No fragment, a plan that is not sound, or buckets past 2^64.
    BadPlan,
}

impl From<NoMemory> for Trouble {
    fn from(_fault: NoMemory) -> Trouble {
        Trouble::NoMemory
    }
}

impl From<StepFault> for Trouble {
    fn from(_fault: StepFault) -> Trouble {
        Trouble::NoMemory
    }
}

impl From<AllocError> for Trouble {
    fn from(_fault: AllocError) -> Trouble {
        Trouble::NoMemory
    }
}

impl<T: Drop> From<AllocFailed<T>> for Trouble {
    fn from(_fault: AllocFailed<T>) -> Trouble {
        Trouble::NoMemory
    }
}

/// The logs of all sources in order of time, source and place, each with its source as its port.
fn serial(alloc: Global, plan: &Plan) -> Result<Vec<Tagged>, Trouble> {
    let mut inputs = Vec::new(alloc);
    let mut port = 0;
    for source in plan.sources.as_slice() {
        for tuple in source.log.as_slice() {
            let tuple = tuple.copy(alloc)?;
            inputs.push(Tagged { port, tuple })?;
        }
        port = port.saturating_add(1);
    }
    inputs.sort_by_key(|x| x.tuple.stime)?;
    Ok(inputs)
}

/// How many of the first inputs lie below a time.
fn count_below(inputs: &[Tagged], time: u64) -> usize
    ensures { result ≤ length inputs.now }
{
    let mut count = 0;
    while count < inputs.len() && inputs[count].tuple.stime < time {
        count += 1;
    }
    count
}

/// Who takes the next bucket.
#[derive(Clone, Copy, PartialEq, Eq)]
pub enum Miller {
    /// The mill that took those before.
    Itself,
    /// A copy of it.
    Copy,
}

/// The output of the first fragment over the first buckets. Its ports are the sources in order.
pub fn milled(
    alloc: Global,
    plan: &Plan,
    buckets: u64,
    miller: Miller,
) -> Result<Vec<Tuple>, Trouble> {
    if !is_sound(plan) || plan.frags.is_empty() {
        return Err(Trouble::BadPlan);
    }
    let mut mill = FragMill::new(alloc, plan, 0)?;
    let inputs = serial(alloc, plan)?;
    let mut rest = inputs.as_slice();
    let mut rows = Vec::new(alloc);
    for k in 0..buckets {
        let end = (k + 1).saturating_mul(plan.width);
        let (bucket, later) = rest.split_at(count_below(rest, end));
        rest = later;
        if !fits_bucket(bucket, plan.width, k) {
            return Err(Trouble::BadPlan);
        }
        if miller == Miller::Copy {
            mill = mill.copy(alloc)?;
        }
        for row in mill.bucket(alloc, bucket, k)?.into_vec() {
            rows.push(row)?;
        }
    }
    Ok(rows)
}
