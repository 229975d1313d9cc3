//! The operators without windows, over whole lists.
ghost use Rattle.std.specs.Prelude.{◌≡◌, ◌++◌, IfOk, OnOk};
ghost use Rattle.dpc_lists.specs.Lists.{sort_by};
ghost use Rattle.dpc_model.specs.Streams.{time_of, cut as cut_list};
ghost use Rattle.dpc_model.specs.Operators.{filtered, mapped, united, joined, is_within, keys_agree, paired, pairs_with};

use dpc_lists::exact::Exact;
use dpc_lists::faults::NoMemory;
use dpc_lists::lists::Listed;
use dpc_model::expressions::Expr;
use dpc_model::tuples::{Tuple, Tuples};
use ops_stateless::eval;
use ops_stateless::map::mapped_one;
use std::alloc::Global;

/// The tuples below a time.
pub fn cut(alloc: Global, tuples: &[Tuple], b: u64) -> Result<Tuples, NoMemory>
    ensures { IfOk result (λ out. out ≡ cut_list tuples.now b) }
{
    let mut out = Vec::new(alloc);
    for tuple in tuples {
        if tuple.stime < b {
            out.push(tuple.copy(alloc)?)?;
        }
    }
    Ok(Listed::from_vec(out))
}

/// The tuples whose value counts as true.
pub fn filter(alloc: Global, test: &Expr, tuples: &[Tuple]) -> Result<Tuples, NoMemory>
    ensures { IfOk result (λ out. out ≡ filtered test.now tuples.now) }
{
    let mut out = Vec::new(alloc);
    for tuple in tuples {
        if eval(test, tuple) != 0 {
            out.push(tuple.copy(alloc)?)?;
        }
    }
    Ok(Listed::from_vec(out))
}

/// What each tuple becomes.
pub fn map(alloc: Global, exprs: &[Expr], tuples: &[Tuple]) -> Result<Tuples, NoMemory>
    ensures { IfOk result (λ out. out ≡ mapped exprs.now tuples.now) }
{
    let mut out = Vec::with_capacity(alloc, tuples.len())?;
    for tuple in tuples {
        out.push(mapped_one(alloc, exprs, tuple)?)?;
    }
    Ok(Listed::from_vec(out))
}

/// The tuples in order of time, those of one time as they stand.
fn sorted(tuples: Vec<Tuple>) -> Result<Tuples, NoMemory>
    ensures { IfOk result (λ out. out ≡ sort_by time_of tuples.items) }
{
    let mut tuples = tuples;
    tuples.sort_by_key(|tuple| tuple.stime)?;
    Ok(Listed::from_vec(tuples))
}

/// Appends copies of tuples.
fn append(alloc: Global, out: &mut Vec<Tuple>, tuples: &[Tuple]) -> Result<(), NoMemory>
    ensures { OnOk result (out.new.items ≡ out.old.items ++ tuples.now) }
{
    for tuple in tuples {
        out.push(tuple.copy(alloc)?)?;
    }
    Ok(())
}

/// All tuples in order of time, input and place.
pub fn union(alloc: Global, inputs: &[Tuples]) -> Result<Tuples, NoMemory>
    ensures { IfOk result (λ out. out ≡ united inputs.now) }
{
    let mut out = Vec::new(alloc);
    for input in inputs {
        append(alloc, &mut out, input.as_slice())?;
    }
    sorted(out)
}

/// Whether two times are at most so far apart.
fn are_near(within: u64, left: u64, right: u64) -> bool
    ensures { result ≡ is_within within left right }
{
    left <= right.saturating_add(within) && right <= left.saturating_add(within)
}

/// Whether the key columns are equal in pairs.
fn agree(keys: &[(u64, u64)], left: &Tuple, right: &Tuple) -> bool
    ensures { result ≡ keys_agree keys.now left.now right.now }
{
    keys.iter()
        .all(|key| left.column(key.0) == right.column(key.1))
}

/// A pair's row: the greater time, and the values of the left and then of the right.
fn pair(alloc: Global, left: &Tuple, right: &Tuple) -> Result<Tuple, NoMemory>
    ensures { IfOk result (λ out. out ≡ paired left.now right.now) }
{
    let mut vals = left.vals.copy(alloc)?;
    vals.extend_from_slice(right.vals.as_slice())?;
    Ok(Tuple {
        stime: left.stime.max(right.stime),
        vals,
    })
}

/// Appends the rows of one left tuple, in order of the right place.
fn pair_with(
    alloc: Global,
    out: &mut Vec<Tuple>,
    within: u64,
    keys: &[(u64, u64)],
    left: &Tuple,
    rights: &[Tuple],
) -> Result<(), NoMemory>
    ensures { OnOk result (out.new.items ≡ out.old.items ++ pairs_with within keys.now rights.now left.now) }
{
    for right in rights {
        if are_near(within, left.stime, right.stime) && agree(keys, left, right) {
            out.push(pair(alloc, left, right)?)?;
        }
    }
    Ok(())
}

/// All pairs of partners in order of the greater time, the left place and the right place.
pub fn join(
    alloc: Global,
    within: u64,
    keys: &[(u64, u64)],
    lefts: &[Tuple],
    rights: &[Tuple],
) -> Result<Tuples, NoMemory>
    ensures { IfOk result (λ out. out ≡ joined within keys.now lefts.now rights.now) }
{
    let mut out = Vec::new(alloc);
    for left in lefts {
        pair_with(alloc, &mut out, within, keys, left, rights)?;
    }
    sorted(out)
}
