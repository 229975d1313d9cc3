//! One side of a join.
ghost use Rattle.std.specs.Prelude.{◌≡◌, ◌+◌, ◌^◌, ◌<◌, ◌↔◌, List, [], ◌∷◌, ◌++◌, length, drop, reverse, IfOk, OnOk, OnErr, IsTrue};
ghost use Rattle.dpc_model.specs.Streams.{InOrder};
ghost use Rattle.ops_join.specs.Joins.{kept_from};
ghost use Rattle.ops_join.specs.Sides.{is_partner, places_from, is_over as is_first_over};

use crate::chains::{Chains, code_of};
use crate::ends::End;
use crate::partners::are_partners;
use dpc_lists::exact::Exact;
use dpc_lists::faults::NoMemory;
use dpc_model::tuples::Tuple;
use std::alloc::{AllocError, Global};
use std::collections::VecDeque;

/// The least count of slots.
const FEWEST_SLOTS: usize = 8;

/// The tuples of one side, in order of place, and what finds them by their key.
#[derive(Drop)]
pub struct Side {
    pub tuples: VecDeque<Tuple>,
    /// The number of the first tuple. Numbers count from the first tuple that was ever taken.
    pub first: u64,
    /// The chains of the tuples. Once there was a tuple, there are at least as many slots as tuples.
    pub chains: Chains,
    ghost fits: { first + length tuples.items < 2 ^ 64 },
}

/// How many slots this many tuples have from the start: a power of two, and more than there are tuples.
fn slots_for(count: usize) -> usize
    ensures { 0 < result }
{
    let most = 1 << 62;
    count.min(most).next_power_of_two().max(FEWEST_SLOTS)
}

/// The same tuples again.
fn copied_tuples(alloc: Global, tuples: &VecDeque<Tuple>) -> Result<VecDeque<Tuple>, AllocError>
    ensures { IfOk result (λ other. other.items ≡ tuples.now.items) }
{
    let mut copies = VecDeque::with_capacity(alloc, tuples.len())?;
    for i in 0..tuples.len() {
        copies.push_back(tuples[i].copy(alloc)?)?;
    }
    Ok(copies)
}

impl Side {
    ghost use Rattle.std.specs.Prelude.{ℕ};
    ghost use Rattle.ops_join.specs.declared.ends.End.{End};
    ghost use Rattle.ops_join.specs.Sides.{IsIndexOf};
    ghost use Rattle.ops_join.specs.Keeping.{IsIndexed, StaysIndexed};

    /// A side with no tuple. It takes no memory.
    pub fn new(alloc: Global) -> Side
        ensures tuples { result.tuples.items ≡ [] }
        ensures indexed { (end : End) (keys : List (ℕ × ℕ)) → IsIndexed end keys result }
    {
        Side {
            tuples: VecDeque::new(alloc),
            first: 0,
            chains: Chains::new(alloc),
        }
    }

    /// Lets all tuples go.
    pub fn clear(&mut self)
        ensures tuples { self.new.tuples.items ≡ [] }
        ensures indexed { (end : End) (keys : List (ℕ × ℕ)) → IsIndexed end keys self.new }
    {
        self.tuples.clear();
        self.first = 0;
        self.chains.clear();
    }

    /// Chains of these tuples with so many slots.
    fn linked(
        &self,
        alloc: Global,
        end: End,
        keys: &[(u64, u64)],
        slots: usize,
    ) -> Result<Chains, AllocError>
        requires { 0 < slots }
        ensures slots { IfOk result (λ chains. length chains.heads.items ≡ slots) }
        ensures indexed { IfOk result (λ chains. IsIndexOf end keys.now self.now.first self.now.tuples.items
            chains.heads.items chains.before.items) }
    {
        let mut chains = Chains::with_slots(alloc, slots, self.tuples.capacity())?;
        for i in 0..self.tuples.len() {
            let code = code_of(keys, end, &self.tuples[i]);
            chains.push(code, self.first + i as u64 + 1)?;
        }
        Ok(chains)
    }

    /// A side with these tuples, which are moved.
    pub fn of(
        alloc: Global,
        end: End,
        keys: &[(u64, u64)],
        tuples: Vec<Tuple>,
    ) -> Result<Side, AllocError>
        ensures tuples { IfOk result (λ side. side.tuples.items ≡ tuples.items) }
        ensures indexed { IfOk result (λ side. IsIndexed end keys.now side) }
    {
        let mut side = Side {
            tuples: VecDeque::from_vec(tuples),
            first: 0,
            chains: Chains::new(alloc),
        };
        let slots = slots_for(side.tuples.len());
        side.chains = side.linked(alloc, end, keys, slots)?;
        Ok(side)
    }

    /// Makes more slots where there are as many tuples. After an error nothing changed.
    fn widen(&mut self, alloc: Global, end: End, keys: &[(u64, u64)]) -> Result<(), AllocError>
        ensures slots { OnOk result (0 < length self.new.chains.heads.items) }
        ensures tuples { self.new.tuples.items ≡ self.old.tuples.items }
        ensures first { self.new.first ≡ self.old.first }
        ensures indexed { IsIndexed end keys.now self.old → IsIndexed end keys.now self.new }
    {
        let slots = self.chains.heads.len();
        if slots <= self.tuples.len() {
            let wider = slots.saturating_mul(2).max(FEWEST_SLOTS);
            self.chains = self.linked(alloc, end, keys, wider)?;
        }
        Ok(())
    }

    /// Takes a copy of a tuple. After an error the tuples stay, and what finds them.
    pub fn push(
        &mut self,
        alloc: Global,
        end: End,
        keys: &[(u64, u64)],
        tuple: &Tuple,
    ) -> Result<(), NoMemory>
        ensures ok { OnOk result (self.new.tuples.items ≡ self.old.tuples.items ++ tuple.now ∷ []) }
        ensures err { OnErr result (self.new.tuples.items ≡ self.old.tuples.items) }
        ensures indexed { IsIndexed end keys.now self.old → IsIndexed end keys.now self.new }
    {
        let number = self.first + self.tuples.len() as u64;
        if number == u64::MAX {
            return Err(NoMemory);
        }
        let copy = tuple.copy(alloc)?;
        self.widen(alloc, end, keys)?;
        self.tuples.reserve(1)?;
        self.chains.push(code_of(keys, end, tuple), number + 1)?;
        self.tuples.push_back_reserved(copy);
        Ok(())
    }

    /// Whether its first tuple can meet no partner from this time on.
    fn is_over(&self, within: u64, begin: u64) -> bool
        ensures { result ≡ is_first_over within begin self.now.tuples.items }
    {
        match self.tuples.front() {
            Some(tuple) => within < begin.saturating_sub(tuple.stime),
            None => false,
        }
    }

    /// Lets the first tuple go. The links to it lead to none from then on.
    fn drop_first(&mut self)
        requires { 0 < length self.old.tuples.items }
        ensures tuples { self.new.tuples.items ≡ drop 1 self.old.tuples.items }
        ensures indexed { StaysIndexed self.old self.new }
    {
        self.tuples.pop_front();
        self.chains.drop_first();
        self.first += 1;
    }

    /// Lets the tuples go that can meet no partner from this time on. It takes no memory.
    pub fn forget(&mut self, within: u64, begin: u64)
        requires { InOrder self.old.tuples.items }
        ensures tuples { self.new.tuples.items ≡ kept_from within begin self.old.tuples.items }
        ensures indexed { StaysIndexed self.old self.new }
    {
        while self.is_over(within, begin) {
            self.drop_first();
        }
    }

    /// Finds the places of tuples that are partners of one of the other side, the last first.
    pub fn partners(
        &self,
        within: u64,
        end: End,
        keys: &[(u64, u64)],
        of: &Tuple,
        places: &mut Vec<usize>,
    ) -> Result<(), NoMemory>
        requires indexed { IsIndexed end keys.now self.now }
        requires empty { places.old.items ≡ [] }
        ensures { OnOk result (places.new.items ≡ reverse (places_from (is_partner end within keys.now of.now) 0 self.now.tuples.items)) }
    {
        let mut link = self.chains.last(code_of(keys, end.other(), of));
        while self.first < link {
            let place = (link - self.first - 1) as usize;
            let tuple = &self.tuples[place];
            if are_partners(within, keys, end, of, tuple) {
                places.push(place)?;
            }
            link = self.chains.before[place];
        }
        Ok(())
    }

    /// The same tuples and chains again.
    pub fn copy(&self, alloc: Global) -> Result<Side, AllocError>
        ensures tuples { IfOk result (λ other. other.tuples.items ≡ self.now.tuples.items) }
        ensures indexed { IfOk result (λ other. StaysIndexed self.now other) }
    {
        let tuples = copied_tuples(alloc, &self.tuples)?;
        let chains = self.chains.copy(alloc)?;
        Ok(Side {
            tuples,
            first: self.first,
            chains,
        })
    }

    /// Whether the two have the same tuples.
    pub fn same(&self, other: &Side) -> bool
        ensures { IsTrue result ↔ (self.now.tuples.items ≡ other.now.tuples.items) }
    {
        if self.tuples.len() != other.tuples.len() {
            return false;
        }
        for i in 0..self.tuples.len() {
            if !self.tuples[i].same(&other.tuples[i]) {
                return false;
            }
        }
        true
    }
}
