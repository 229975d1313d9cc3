//! The rows of pairs of partners.
ghost use Rattle.std.specs.Prelude.{◌≡◌, ℕ, [], ◌++◌, ◌<◌, ◌≤◌, map, reverse, drop, length, flat_map, All, IfOk, OnOk};
ghost use Rattle.dpc_lists.specs.Lists.{sort_by};
ghost use Rattle.dpc_model.specs.Streams.{InOrder};
ghost use Rattle.dpc_model.specs.Operators.{paired, pairs_with, are_partners};
ghost use Rattle.dpc_model.specs.Fragments.{at_port};
ghost use Rattle.dpc_model.specs.declared.tuples.Tuple.{Tuple};
ghost use Rattle.ops_join.specs.Joins.{kept_from};
ghost use Rattle.ops_join.specs.Sides.{at_places, pairs_by_right, row_at, taken, bucket_rows};
ghost use Rattle.ops_join.specs.declared.ends.End.TheVariants.{Left, Right};

use crate::ends::End;
use crate::sides::Sides;
use dpc_lists::exact::Exact;
use dpc_lists::faults::NoMemory;
use dpc_model::tuples::{Tagged, Tuple};
use std::alloc::{AllocError, Global};

/// The row of a pair.
pub(crate) fn row(alloc: Global, left: &Tuple, right: &Tuple) -> Result<Tuple, AllocError>
    ensures { IfOk result (λ t. t ≡ paired left.now right.now) }
{
    let mut vals = left.vals.copy(alloc)?;
    vals.extend_from_slice(right.vals.as_slice())?;
    Ok(Tuple {
        stime: left.stime.max(right.stime),
        vals,
    })
}

/// The pairs in order of the left place, those of one left place as they stood.
pub(crate) fn by_left(pairs: Vec<(usize, usize)>) -> Result<Vec<(usize, usize)>, AllocError>
    ensures { IfOk result (λ sorted. sorted.items ≡ sort_by (λ (pair : ℕ × ℕ). pair.0) pairs.items) }
{
    let mut pairs = pairs;
    pairs.sort_by_key(|pair| pair.0)?;
    Ok(pairs)
}

/// The rows in order of time, those of one time as they stood.
fn sorted(rows: Vec<Tuple>) -> Result<Vec<Tuple>, AllocError>
    ensures { IfOk result (λ sorted. sorted.items ≡ sort_by (λ (t : Tuple). t.stime) rows.items) }
{
    let mut rows = rows;
    rows.sort_by_key(|row| row.stime)?;
    Ok(rows)
}

/// Takes out left places, which stand the last first, and adds the pairs of each with a right one.
pub(crate) fn add_pairs(
    places: &mut Vec<usize>,
    right: usize,
    pairs: &mut Vec<(usize, usize)>,
) -> Result<(), NoMemory>
    ensures places { OnOk result (places.new.items ≡ []) }
    ensures pairs { OnOk result (pairs.new.items ≡ pairs.old.items ++ map (λ p. (p, right)) (reverse places.old.items)) }
{
    while let Some(place) = places.pop() {
        pairs.push((place, right))?;
    }
    Ok(())
}

impl Sides {
    /// Takes out places of partners of a left tuple, which stand the last first, and adds their rows.
    fn add_rows(
        &self,
        alloc: Global,
        left: &Tuple,
        places: &mut Vec<usize>,
        rows: &mut Vec<Tuple>,
    ) -> Result<(), NoMemory>
        requires { All (λ p. p < length self.now.right) (reverse places.old.items) }
        ensures places { OnOk result (places.new.items ≡ []) }
        ensures rows { OnOk result (rows.new.items
            ≡ rows.old.items ++ map (paired left.now) (at_places self.now.right (reverse places.old.items))) }
    {
        let right = self.right();
        while let Some(place) = places.pop() {
            rows.push(row(alloc, left, &right[place])?)?;
        }
        Ok(())
    }

    /// The places of all left tuples with their partners from place `from` on, by the right place.
    fn late_pairs(
        &self,
        alloc: Global,
        within: u64,
        from: usize,
    ) -> Result<Vec<(usize, usize)>, NoMemory>
        requires { from ≤ length self.now.right }
        ensures { IfOk result (λ pairs. pairs.items
            ≡ pairs_by_right (are_partners within self.now.keys) self.now.left from (drop from self.now.right)) }
    {
        let right = self.right();
        let mut places = Vec::new(alloc);
        let mut pairs = Vec::new(alloc);
        for i in from..right.len() {
            self.partners(within, End::Left, &right[i], &mut places)?;
            add_pairs(&mut places, i, &mut pairs)?;
        }
        Ok(pairs)
    }

    /// The rows of these pairs.
    fn rows_of(&self, alloc: Global, pairs: &[(usize, usize)]) -> Result<Vec<Tuple>, NoMemory>
        requires { All (λ (pair : ℕ × ℕ). (pair.0 < length self.now.left) × (pair.1 < length self.now.right)) pairs.now }
        ensures { IfOk result (λ rows. rows.items ≡ flat_map (row_at self.now.left self.now.right) pairs.now) }
    {
        let (left, right) = (self.left(), self.right());
        let mut rows = Vec::with_capacity(alloc, pairs.len())?;
        for pair in pairs {
            rows.push(row(alloc, &left[pair.0], &right[pair.1])?)?;
        }
        Ok(rows)
    }

    /// The rows of all left tuples with the right ones from place `from` on.
    fn late_rows(&self, alloc: Global, within: u64, from: usize) -> Result<Vec<Tuple>, NoMemory>
        requires { from ≤ length self.now.right }
        ensures { IfOk result (λ rows. rows.items ≡ flat_map (pairs_with within self.now.keys (drop from self.now.right)) self.now.left) }
    {
        let pairs = by_left(self.late_pairs(alloc, within, from)?)?;
        let rows = self.rows_of(alloc, pairs.as_slice())?;
        Ok(rows)
    }

    /// Adds the rows of the left tuples from place `from` on with all right ones.
    fn add_new_rows(
        &self,
        alloc: Global,
        within: u64,
        from: usize,
        rows: &mut Vec<Tuple>,
    ) -> Result<(), NoMemory>
        requires { from ≤ length self.now.left }
        ensures { OnOk result (rows.new.items ≡ rows.old.items
            ++ flat_map (pairs_with within self.now.keys self.now.right) (drop from self.now.left)) }
    {
        let left = self.left();
        let mut places = Vec::new(alloc);
        for i in from..left.len() {
            let tuple = &left[i];
            self.partners(within, End::Right, tuple, &mut places)?;
            self.add_rows(alloc, tuple, &mut places, rows)?;
        }
        Ok(())
    }

    /// Takes a bucket's inputs to both sides, and gives the rows that they add. After an error it took
    /// some of them.
    fn added_rows(
        &mut self,
        alloc: Global,
        within: u64,
        inputs: &[Tagged],
    ) -> Result<Vec<Tuple>, NoMemory>
        ensures rows { IfOk result (λ rows. rows.items
            ≡ bucket_rows within self.old.keys self.old.left self.old.right (at_port 0 inputs.now) (at_port 1 inputs.now)) }
        ensures taken { OnOk result (self.new ≡ taken Left (at_port 0 inputs.now) (taken Right (at_port 1 inputs.now) self.old)) }
        ensures keys { self.new.keys ≡ self.old.keys }
    {
        let known_right = self.right().len();
        self.take(alloc, End::Right, inputs)?;
        let mut rows = self.late_rows(alloc, within, known_right)?;
        let known_left = self.left().len();
        self.take(alloc, End::Left, inputs)?;
        self.add_new_rows(alloc, within, known_left, &mut rows)?;
        Ok(sorted(rows)?)
    }

    /// Takes a bucket's inputs, gives the rows that they add, and keeps what can still meet a partner
    /// from the bucket's end on. After an error it took some of them.
    pub fn advance(
        &mut self,
        alloc: Global,
        within: u64,
        inputs: &[Tagged],
        end: u64,
    ) -> Result<Vec<Tuple>, NoMemory>
        requires left { InOrder (self.old.left ++ at_port 0 inputs.now) }
        requires right { InOrder (self.old.right ++ at_port 1 inputs.now) }
        ensures rows { IfOk result (λ rows. rows.items
            ≡ bucket_rows within self.old.keys self.old.left self.old.right (at_port 0 inputs.now) (at_port 1 inputs.now)) }
        ensures left { OnOk result (self.new.left ≡ kept_from within end (self.old.left ++ at_port 0 inputs.now)) }
        ensures right { OnOk result (self.new.right ≡ kept_from within end (self.old.right ++ at_port 1 inputs.now)) }
        ensures keys { self.new.keys ≡ self.old.keys }
    {
        let rows = self.added_rows(alloc, within, inputs)?;
        self.forget(within, end);
        Ok(rows)
    }
}
