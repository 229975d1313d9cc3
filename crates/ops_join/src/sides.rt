//! The two sides of a join.
ghost use Rattle.std.specs.Prelude.{◌≡◌, ◌↔◌, [], ◌∷◌, reverse, IfOk, OnOk, OnErr, IsTrue};
ghost use Rattle.dpc_model.specs.Streams.{InOrder};
ghost use Rattle.dpc_model.specs.Fragments.{at_port};
ghost use Rattle.ops_join.specs.Joins.{kept_from};
ghost use Rattle.ops_join.specs.Sides.{port_of, is_partner, places_from, new_sides, tuples_of, taken};
ghost use Rattle.ops_join.specs.Keeping.{IsIndexed};

use crate::ends::End;
use crate::side::Side;
use dpc_lists::exact::Exact;
use dpc_lists::faults::NoMemory;
use dpc_lists::lists::Listed;
use dpc_model::tuples::{Tagged, Tuple};
use std::alloc::Global;
use std::collections::VecDeque;
use std::marker::Model;

/// The tuples of both sides, by the key columns of a join. Contracts see a `SidesState`.
#[derive(Drop)]
pub struct Sides {
    keys: Listed<(u64, u64)>,
    left: Side,
    right: Side,
}

impl Model for Sides {
    ghost use Rattle.ops_join.specs.Sides.{SidesState};
    ghost use Rattle.ops_join.specs.Keeping.{IsIndexed};
    ghost use Rattle.ops_join.specs.declared.ends.End.TheVariants.{Left, Right};

    ghost Value = { SidesState };

    ghost view = { λ s. record { keys = s.keys; left = s.left.tuples.items; right = s.right.tuples.items } };

    ghost invariant = { λ s. IsIndexed Left s.keys s.left × IsIndexed Right s.keys s.right };
}

impl Sides {
    /// Sides with no tuple. It takes no memory.
    pub fn new(alloc: Global, keys: Listed<(u64, u64)>) -> Sides
        ensures { result ≡ new_sides keys }
    {
        Sides {
            keys,
            left: Side::new(alloc),
            right: Side::new(alloc),
        }
    }

    /// Sides of the same key columns with no tuple.
    pub fn without_tuples(&self, alloc: Global) -> Result<Sides, NoMemory>
        ensures { IfOk result (λ other. other ≡ new_sides self.now.keys) }
    {
        Ok(Sides::new(alloc, self.keys.copy(alloc)?))
    }

    /// The sides with these tuples in place of their own. The tuples are moved.
    pub fn with_tuples(
        self,
        alloc: Global,
        left: Vec<Tuple>,
        right: Vec<Tuple>,
    ) -> Result<Sides, NoMemory>
        ensures { IfOk result (λ other. other ≡ record self { left = left.items; right = right.items }) }
    {
        let Sides { keys, .. } = self;
        let left = Side::of(alloc, End::Left, keys.as_slice(), left)?;
        let right = Side::of(alloc, End::Right, keys.as_slice(), right)?;
        Ok(Sides { keys, left, right })
    }

    /// Lets all tuples go.
    pub fn clear(&mut self)
        ensures { self.new ≡ new_sides self.old.keys }
    {
        self.left.clear();
        self.right.clear();
    }

    /// The left tuples, in order of place.
    pub fn left(&self) -> &VecDeque<Tuple>
        ensures { result.now.items ≡ self.now.left }
    {
        &self.left.tuples
    }

    /// The right tuples, in order of place.
    pub fn right(&self) -> &VecDeque<Tuple>
        ensures { result.now.items ≡ self.now.right }
    {
        &self.right.tuples
    }

    /// The side of this end, whose index has its tuples.
    fn side(&self, end: End) -> &Side
        ensures tuples { result.now.tuples.items ≡ tuples_of end self.now }
        ensures indexed { IsIndexed end self.now.keys result.now }
    {
        match end {
            End::Left => &self.left,
            End::Right => &self.right,
        }
    }

    /// Takes a copy of a tuple on a side. After an error nothing changed.
    fn push(&mut self, alloc: Global, end: End, tuple: &Tuple) -> Result<(), NoMemory>
        ensures ok { OnOk result (self.new ≡ taken end (tuple.now ∷ []) self.old) }
        ensures err { OnErr result (self.new ≡ self.old) }
    {
        let keys = self.keys.as_slice();
        match end {
            End::Left => self.left.push(alloc, end, keys, tuple),
            End::Right => self.right.push(alloc, end, keys, tuple),
        }
    }

    /// Takes the inputs of a side's port. After an error it took some of them.
    pub fn take(&mut self, alloc: Global, end: End, inputs: &[Tagged]) -> Result<(), NoMemory>
        ensures taken { OnOk result (self.new ≡ taken end (at_port (port_of end) inputs.now) self.old) }
        ensures keys { self.new.keys ≡ self.old.keys }
    {
        for x in inputs {
            if x.port == end.port() {
                self.push(alloc, end, &x.tuple)?;
            }
        }
        Ok(())
    }

    /// Lets the tuples go that can meet no partner from this time on. It takes no memory.
    pub fn forget(&mut self, within: u64, begin: u64)
        requires left { InOrder self.old.left }
        requires right { InOrder self.old.right }
        ensures { self.new ≡ record self.old {
          left = kept_from within begin self.old.left;
          right = kept_from within begin self.old.right;
        } }
    {
        self.left.forget(within, begin);
        self.right.forget(within, begin);
    }

    /// Finds the places of a side's tuples that are partners of one of the other side, the last first.
    pub fn partners(
        &self,
        within: u64,
        end: End,
        of: &Tuple,
        places: &mut Vec<usize>,
    ) -> Result<(), NoMemory>
        requires { places.old.items ≡ [] }
        ensures { OnOk result (places.new.items
            ≡ reverse (places_from (is_partner end within self.now.keys of.now) 0 (tuples_of end self.now))) }
    {
        let side = self.side(end);
        side.partners(within, end, self.keys.as_slice(), of, places)
    }

    /// The same tuples again.
    pub fn copy(&self, alloc: Global) -> Result<Sides, NoMemory>
        ensures { IfOk result (λ other. other ≡ self.now) }
    {
        let keys = self.keys.copy(alloc)?;
        let left = self.left.copy(alloc)?;
        let right = self.right.copy(alloc)?;
        Ok(Sides { keys, left, right })
    }

    /// Whether the two have the same key columns and the same tuples.
    pub fn same(&self, other: &Sides) -> bool
        ensures { IsTrue result ↔ (self.now ≡ other.now) }
    {
        self.keys.same(&other.keys) && self.left.same(&other.left) && self.right.same(&other.right)
    }
}
