//! The cells that open windows need, in panes that copies share.
ghost use Rattle.std.specs.Prelude.{◌≡◌, ◌↔◌, ◌-◌, ◌^◌, [], length, min, IfOk, OnOk, IsTrue};
ghost use Rattle.std.specs.Iterator.{YieldsFirstBy, item_count};
ghost use Rattle.ops_window.specs.Feeding.{take_cell, join_cell, cells_before, cells_behind};

use crate::pane::Pane;
use crate::totals::Totals;
use dpc_lists::faults::NoMemory;
use dpc_model::operators::Agg;
use dpc_model::tuples::Tuple;
use std::alloc::{AllocError, Global};
use std::collections::btree_map::Entry;
use std::collections::{BTreeMap, btree_map};
use std::marker::Model;
use std::mem;

/// The cells that open windows need: for each begin, of a pane or a window, the totals of each group
/// seen in it. A copy shares the panes, and one is copied where it is written to while shared.
#[derive(Drop)]
pub struct Cells {
    panes: BTreeMap<u64, Pane>,
}

impl Model for Cells {
    ghost use Rattle.std.specs.Prelude.{List};
    ghost use Rattle.ops_window.specs.Windows.{Cell, cells_of_panes};

    ghost Value = { List Cell };

    ghost view = { λ c. cells_of_panes c.panes.entries };
}

/// The cells in order of begin and group, seen as the list of those that are left.
#[derive(Drop)]
pub struct Iter<'a> {
    panes: btree_map::Iter<'a, u64, Pane>,
    /// The begin of the pane in which the walk stands.
    begin: u64,
    /// What is left of that pane, and `None` before the first one.
    groups: Option<btree_map::Iter<'a, i64, Totals>>,
}

impl<'a> Model for Iter<'a> {
    ghost use Rattle.std.specs.Prelude.{List};
    ghost use Rattle.ops_window.specs.Windows.{Cell, cells_left};

    ghost Value = { List Cell };

    ghost view = { λ it. cells_left it.begin it.groups it.panes };
}

impl<'a> Iterator for Iter<'a> {
    type Item = ((u64, i64), &'a Totals);

    ghost next_gives = { YieldsFirstBy (λ item. (item.0, item.1.now)) (λ rest. rest) };

    ghost remaining = { item_count (λ rest. rest) };

    fn next(&mut self) -> Option<((u64, i64), &'a Totals)> {
        'panes: loop {
            if let Some(groups) = self.groups.as_mut() {
                if let Some((group, totals)) = groups.next() {
                    return Some(((self.begin, *group), totals));
                }
            }
            let (begin, pane) = self.panes.next()?;
            self.begin = *begin;
            self.groups = Some(pane.iter());
        }
    }
}

impl Cells {
    /// No cells. It takes no memory.
    pub(crate) fn new(alloc: Global) -> Cells
        ensures { result ≡ [] }
    {
        Cells {
            panes: BTreeMap::new(alloc),
        }
    }

    /// The cells in order.
    pub fn iter(&self) -> Iter<'_>
        ensures { result ≡ self.now }
    {
        Iter {
            panes: self.panes.iter(),
            begin: 0,
            groups: None,
        }
    }

    /// How many cells there are, at most the greatest `usize`.
    pub fn len(&self) -> usize
        ensures { result ≡ min (length self.now) (2 ^ 64 - 1) }
    {
        let mut count: usize = 0;
        for (_, pane) in self.panes.iter() {
            count = count.saturating_add(pane.len());
        }
        count
    }

    /// Whether there is none.
    pub fn is_empty(&self) -> bool
        ensures { IsTrue result ↔ (self.now ≡ []) }
    {
        self.iter().next().is_none()
    }

    /// Lets all cells go.
    pub(crate) fn clear(&mut self)
        ensures { self.new ≡ [] }
    {
        self.panes.clear();
    }

    /// The same cells again, in the same panes.
    pub(crate) fn share(&self) -> Result<Cells, AllocError>
        ensures { IfOk result (λ other. other ≡ self.now) }
    {
        Ok(Cells {
            panes: self.panes.clone()?,
        })
    }

    /// Takes a tuple into one cell.
    pub(crate) fn take_in(
        &mut self,
        alloc: Global,
        aggs: &[Agg],
        tuple: &Tuple,
        key: (u64, i64),
    ) -> Result<(), NoMemory>
        ensures { OnOk result (self.new ≡ take_cell aggs.now tuple.now self.old key) }
    {
        let (begin, group) = key;
        match self.panes.entry(begin)? {
            Entry::Vacant(place) => place
                .insert(Pane::new(alloc)?)
                .take_in(alloc, aggs, tuple, group),
            Entry::Occupied(place) => place.into_mut().take_in(alloc, aggs, tuple, group),
        }
    }

    /// Joins totals into those of one cell of a window.
    pub(crate) fn join_in(
        &mut self,
        alloc: Global,
        aggs: &[Agg],
        key: (u64, i64),
        totals: &[i128],
    ) -> Result<(), NoMemory>
        ensures { OnOk result (self.new ≡ join_cell aggs.now key.0 self.old (key, totals.now)) }
    {
        let (begin, group) = key;
        match self.panes.entry(begin)? {
            Entry::Vacant(place) => place
                .insert(Pane::new(alloc)?)
                .join_in(alloc, aggs, group, totals),
            Entry::Occupied(place) => place.into_mut().join_in(alloc, aggs, group, totals),
        }
    }

    /// Takes the first cells out, as far as they begin below a time.
    pub(crate) fn take_before(&mut self, alloc: Global, time: u64) -> Result<Cells, AllocError>
        ensures taken { IfOk result (λ taken. taken ≡ cells_before time self.old) }
        ensures left { OnOk result (self.new ≡ cells_behind time self.old) }
    {
        let Some((begin, _)) = self.panes.first_key_value() else {
            return Ok(Cells::new(alloc));
        };
        if time <= *begin {
            return Ok(Cells::new(alloc));
        }
        let rest = self.panes.split_off(&time)?;
        Ok(Cells {
            panes: mem::replace(&mut self.panes, rest),
        })
    }
}

/// Whether the two have the same cells.
pub(crate) fn are_same(cells: &Cells, others: &Cells) -> bool
    ensures { IsTrue result ↔ (cells.now ≡ others.now) }
{
    let mut rest = others.iter();
    for (key, totals) in cells.iter() {
        match rest.next() {
            Some((other, wanted)) if key == other && totals.as_slice() == wanted.as_slice() => {}
            _ => return false,
        }
    }
    rest.next().is_none()
}
