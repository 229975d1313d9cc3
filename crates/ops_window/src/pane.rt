//! The totals of the groups of one pane or window, which copies share.
ghost use Rattle.std.specs.Prelude.{◌≡◌, [], length, IfOk, OnOk};
ghost use Rattle.ops_window.specs.Feeding.{take_group, join_group};

use crate::totals::{Totals, first_totals};
use dpc_lists::faults::NoMemory;
use dpc_model::operators::Agg;
use dpc_model::tuples::Tuple;
use std::alloc::{AllocError, Global};
use std::collections::BTreeMap;
use std::collections::btree_map::{Entry, Iter};
use std::marker::Model;
use std::sync::Arc;

type Groups = BTreeMap<i64, Totals>;

/// The totals of each group. A copy shares them, and they are copied where they are written to
/// while shared.
#[derive(Drop)]
pub(crate) struct Pane {
    groups: Arc<Groups>,
}

impl Model for Pane {
    ghost use Rattle.std.specs.Prelude.{ℤ, List};

    ghost Value = { List (ℤ × List ℤ) };

    ghost view = { λ p. p.groups.value.entries };
}

impl Clone for Pane {
    ghost is_clone = { λ pane copy. copy ≡ pane };

    fn clone(&self) -> Result<Pane, AllocError> {
        Ok(Pane {
            groups: self.groups.clone()?,
        })
    }
}

/// Takes a tuple into one group.
fn take_in(
    alloc: Global,
    groups: &mut Groups,
    aggs: &[Agg],
    tuple: &Tuple,
    group: i64,
) -> Result<(), NoMemory>
    ensures { OnOk result (groups.new.entries ≡ take_group aggs.now tuple.now groups.old.entries group) }
{
    match groups.entry(group)? {
        Entry::Vacant(place) => {
            place.insert(first_totals(alloc, aggs, tuple)?);
            Ok(())
        }
        Entry::Occupied(place) => place.into_mut().grow(aggs, tuple),
    }
}

/// Joins totals into those of one group.
fn join_in(
    alloc: Global,
    groups: &mut Groups,
    aggs: &[Agg],
    group: i64,
    totals: &[i128],
) -> Result<(), NoMemory>
    ensures { OnOk result (groups.new.entries ≡ join_group aggs.now totals.now groups.old.entries group) }
{
    match groups.entry(group)? {
        Entry::Vacant(place) => {
            place.insert(Totals::from_slice(alloc, totals)?);
            Ok(())
        }
        Entry::Occupied(place) => place.into_mut().join(aggs, totals),
    }
}

impl Pane {
    /// A pane without a group.
    pub(crate) fn new(alloc: Global) -> Result<Pane, AllocError>
        ensures { IfOk result (λ pane. pane ≡ []) }
    {
        Ok(Pane {
            groups: Arc::new(alloc, BTreeMap::new(alloc))?,
        })
    }

    /// How many groups there are.
    pub(crate) fn len(&self) -> usize
        ensures { result ≡ length self.now }
    {
        self.groups.len()
    }

    /// The groups in order, each with its totals.
    pub(crate) fn iter(&self) -> Iter<'_, i64, Totals>
        ensures { result ≡ self.now }
    {
        self.groups.iter()
    }

    /// Takes a tuple into one group.
    pub(crate) fn take_in(
        &mut self,
        alloc: Global,
        aggs: &[Agg],
        tuple: &Tuple,
        group: i64,
    ) -> Result<(), NoMemory>
        ensures { OnOk result (self.new ≡ take_group aggs.now tuple.now self.old group) }
    {
        take_in(alloc, Arc::make_mut(&mut self.groups)?, aggs, tuple, group)
    }

    /// Joins totals into those of one group.
    pub(crate) fn join_in(
        &mut self,
        alloc: Global,
        aggs: &[Agg],
        group: i64,
        totals: &[i128],
    ) -> Result<(), NoMemory>
        ensures { OnOk result (self.new ≡ join_group aggs.now totals.now self.old group) }
    {
        join_in(alloc, Arc::make_mut(&mut self.groups)?, aggs, group, totals)
    }
}
