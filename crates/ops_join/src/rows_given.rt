//! The rows of pairs of partners, given one behind another.
ghost use Rattle.std.specs.Prelude.{◌≡◌, ℕ, [], ◌++◌, ◌+◌, ◌-◌, ◌<◌, ◌≤◌, map, reverse, take, drop, length, flat_map, All, IfOk, IfSome, OnOk, OnErr};
ghost use Rattle.dpc_model.specs.Streams.{InOrder, IsOrdered};
ghost use Rattle.dpc_model.specs.Operators.{paired, pairs_with, are_partners};
ghost use Rattle.dpc_model.specs.Fragments.{at_port};
ghost use Rattle.dpc_model.specs.declared.tuples.Tagged.{Tagged};
ghost use Rattle.ops_join.specs.Joins.{kept_from};
ghost use Rattle.ops_join.specs.Sides.{at_places, pairs_by_right, row_at, taken, bucket_rows};
ghost use Rattle.ops_join.specs.Groups.{tagged_below, ComesAfter, group_rows};
ghost use Rattle.ops_join.specs.RowsOut.{Takes, TakesFirst};
ghost use Rattle.ops_join.specs.declared.ends.End.TheVariants.{Left, Right};

use crate::ends::End;
use crate::rows::{add_pairs, by_left, row};
use crate::rows_out::{Ended, RowSink};
use crate::sides::Sides;
use dpc_lists::faults::NoMemory;
use dpc_model::tuples::{Tagged, Tuple};
use std::alloc::Global;
use std::collections::VecDeque;

/// So many pairs of one time may be held.
const MOST_PAIRS: usize = 1 << 16;

/// How many of the inputs, which are in order of time, lie below a time. It searches by halves.
fn count_below(inputs: &[Tagged], time: u64) -> usize
    requires { IsOrdered (λ (x : Tagged). x.tuple.stime) inputs.now }
    ensures count { result ≡ tagged_below time inputs.now }
    ensures within { result ≤ length inputs.now }
{
    inputs.partition_point(|input| input.tuple.stime < time)
}

/// The inputs from one place on and before another.
fn part(inputs: &[Tagged], from: usize, to: usize) -> &[Tagged]
    requires order { from ≤ to }
    requires within { to ≤ length inputs.now }
    ensures { result.now ≡ take (to - from) (drop from inputs.now) }
{
    &inputs[from..to]
}

impl Sides {
    /// Takes out places of partners of a left tuple, which stand the last first, and gives their rows.
    fn give_partners<K, R: RowSink<K>>(
        &self,
        alloc: Global,
        left: &Tuple,
        places: &mut Vec<usize>,
        sink: &mut R,
        out: &mut K,
    ) -> Result<(), Ended>
        requires { All (λ p. p < length self.now.right) (reverse places.old.items) }
        ensures places { OnOk result (places.new.items ≡ []) }
        ensures rows { OnOk result (Takes (R.took sink.old out.old) (R.took sink.new out.new)
            (map (paired left.now) (at_places self.now.right (reverse places.old.items)))) }
        ensures first { OnErr result (TakesFirst (R.took sink.old out.old) (R.took sink.new out.new)
            (map (paired left.now) (at_places self.now.right (reverse places.old.items)))) }
    {
        let right = self.right();
        while let Some(place) = places.pop() {
            let row = row(alloc, left, &right[place])?;
            sink.give(out, &row)?;
        }
        Ok(())
    }

    /// Gives the rows of these left tuples, from place `from` on, with all right ones.
    fn give_left<K, R: RowSink<K>>(
        &self,
        alloc: Global,
        within: u64,
        left: &VecDeque<Tuple>,
        from: usize,
        sink: &mut R,
        out: &mut K,
    ) -> Result<(), Ended>
        requires { from ≤ length left.now.items }
        ensures rows { OnOk result (Takes (R.took sink.old out.old) (R.took sink.new out.new)
            (flat_map (pairs_with within self.now.keys self.now.right) (drop from left.now.items))) }
        ensures first { OnErr result (TakesFirst (R.took sink.old out.old) (R.took sink.new out.new)
            (flat_map (pairs_with within self.now.keys self.now.right) (drop from left.now.items))) }
    {
        let mut places = Vec::new(alloc);
        for i in from..left.len() {
            let tuple = &left[i];
            self.partners(within, End::Right, tuple, &mut places)?;
            self.give_partners(alloc, tuple, &mut places, sink, out)?;
        }
        Ok(())
    }

    /// The places of all left tuples with their partners from place `from` on, by the right place; none
    /// where there are many.
    fn few_late_pairs(
        &self,
        alloc: Global,
        within: u64,
        from: usize,
    ) -> Result<Option<Vec<(usize, usize)>>, NoMemory>
        requires { from ≤ length self.now.right }
        ensures { IfOk result (λ few. IfSome few (λ pairs. pairs.items
            ≡ pairs_by_right (are_partners within self.now.keys) self.now.left from (drop from self.now.right))) }
    {
        let right = self.right();
        let mut places = Vec::new(alloc);
        let mut pairs = Vec::new(alloc);
        for i in from..right.len() {
            self.partners(within, End::Left, &right[i], &mut places)?;
            if MOST_PAIRS.saturating_sub(pairs.len()) < places.len() {
                return Ok(None);
            }
            add_pairs(&mut places, i, &mut pairs)?;
        }
        Ok(Some(pairs))
    }

    /// Gives the rows of these pairs.
    fn give_pairs<K, R: RowSink<K>>(
        &self,
        alloc: Global,
        pairs: &[(usize, usize)],
        sink: &mut R,
        out: &mut K,
    ) -> Result<(), Ended>
        requires { All (λ (pair : ℕ × ℕ). (pair.0 < length self.now.left) × (pair.1 < length self.now.right)) pairs.now }
        ensures rows { OnOk result (Takes (R.took sink.old out.old) (R.took sink.new out.new)
            (flat_map (row_at self.now.left self.now.right) pairs.now)) }
        ensures first { OnErr result (TakesFirst (R.took sink.old out.old) (R.took sink.new out.new)
            (flat_map (row_at self.now.left self.now.right) pairs.now)) }
    {
        let (left, right) = (self.left(), self.right());
        for pair in pairs {
            let row = row(alloc, &left[pair.0], &right[pair.1])?;
            sink.give(out, &row)?;
        }
        Ok(())
    }

    /// Gives the rows of all left tuples with the right ones from place `from` on, which are those of
    /// the inputs.
    fn give_late<K, R: RowSink<K>>(
        &self,
        alloc: Global,
        within: u64,
        from: usize,
        inputs: &[Tagged],
        sink: &mut R,
        out: &mut K,
    ) -> Result<(), Ended>
        requires from { from ≤ length self.now.right }
        requires inputs { drop from self.now.right ≡ at_port 1 inputs.now }
        ensures rows { OnOk result (Takes (R.took sink.old out.old) (R.took sink.new out.new)
            (flat_map (pairs_with within self.now.keys (drop from self.now.right)) self.now.left)) }
        ensures first { OnErr result (TakesFirst (R.took sink.old out.old) (R.took sink.new out.new)
            (flat_map (pairs_with within self.now.keys (drop from self.now.right)) self.now.left)) }
    {
        if let Some(pairs) = self.few_late_pairs(alloc, within, from)? {
            let pairs = by_left(pairs)?;
            self.give_pairs(alloc, pairs.as_slice(), sink, out)?;
            return Ok(());
        }
        let mut late = self.without_tuples(alloc)?;
        late.take(alloc, End::Right, inputs)?;
        late.give_left(alloc, within, self.left(), 0, sink, out)?;
        Ok(())
    }

    /// Takes inputs of one time to both sides, and gives the rows that they add. After an error it took
    /// some of them.
    fn give_group<K, R: RowSink<K>>(
        &mut self,
        alloc: Global,
        within: u64,
        inputs: &[Tagged],
        sink: &mut R,
        out: &mut K,
    ) -> Result<(), Ended>
        ensures rows { OnOk result (Takes (R.took sink.old out.old) (R.took sink.new out.new)
            (group_rows within self.old.keys self.old.left self.old.right (at_port 0 inputs.now) (at_port 1 inputs.now))) }
        ensures first { OnErr result (TakesFirst (R.took sink.old out.old) (R.took sink.new out.new)
            (group_rows within self.old.keys self.old.left self.old.right (at_port 0 inputs.now) (at_port 1 inputs.now))) }
        ensures taken { OnOk result (self.new ≡ taken Left (at_port 0 inputs.now) (taken Right (at_port 1 inputs.now) self.old)) }
        ensures keys { self.new.keys ≡ self.old.keys }
    {
        let known_right = self.right().len();
        self.take(alloc, End::Right, inputs)?;
        self.give_late(alloc, within, known_right, inputs, sink, out)?;
        let known_left = self.left().len();
        self.take(alloc, End::Left, inputs)?;
        self.give_left(alloc, within, self.left(), known_left, sink, out)?;
        Ok(())
    }

    /// Takes a bucket's inputs to both sides, time by time, and gives the rows that they add. After an
    /// error it took some of them.
    fn give_added<K, R: RowSink<K>>(
        &mut self,
        alloc: Global,
        within: u64,
        inputs: &[Tagged],
        sink: &mut R,
        out: &mut K,
    ) -> Result<(), Ended>
        requires { ComesAfter self.old.left self.old.right inputs.now }
        ensures rows { OnOk result (Takes (R.took sink.old out.old) (R.took sink.new out.new)
            (bucket_rows within self.old.keys self.old.left self.old.right (at_port 0 inputs.now) (at_port 1 inputs.now))) }
        ensures first { OnErr result (TakesFirst (R.took sink.old out.old) (R.took sink.new out.new)
            (bucket_rows within self.old.keys self.old.left self.old.right (at_port 0 inputs.now) (at_port 1 inputs.now))) }
        ensures taken { OnOk result (self.new ≡ taken Left (at_port 0 inputs.now) (taken Right (at_port 1 inputs.now) self.old)) }
        ensures keys { self.new.keys ≡ self.old.keys }
    {
        let mut done = 0;
        while done < inputs.len() {
            let Some(later) = inputs[done].tuple.stime.checked_add(1) else {
                return Err(Ended);
            };
            let next = count_below(inputs, later);
            let group = part(inputs, done, next);
            self.give_group(alloc, within, group, sink, out)?;
            done = next;
        }
        Ok(())
    }

    /// Takes a bucket's inputs, gives the rows that they add, and keeps what can still meet a partner
    /// from the bucket's end on. After an error it took some of them.
    pub fn advance_giving<K, R: RowSink<K>>(
        &mut self,
        alloc: Global,
        within: u64,
        inputs: &[Tagged],
        end: u64,
        sink: &mut R,
        out: &mut K,
    ) -> Result<(), Ended>
        requires after { ComesAfter self.old.left self.old.right inputs.now }
        requires left { InOrder (self.old.left ++ at_port 0 inputs.now) }
        requires right { InOrder (self.old.right ++ at_port 1 inputs.now) }
        ensures rows { OnOk result (Takes (R.took sink.old out.old) (R.took sink.new out.new)
            (bucket_rows within self.old.keys self.old.left self.old.right (at_port 0 inputs.now) (at_port 1 inputs.now))) }
        ensures first { OnErr result (TakesFirst (R.took sink.old out.old) (R.took sink.new out.new)
            (bucket_rows within self.old.keys self.old.left self.old.right (at_port 0 inputs.now) (at_port 1 inputs.now))) }
        ensures left { OnOk result (self.new.left ≡ kept_from within end (self.old.left ++ at_port 0 inputs.now)) }
        ensures right { OnOk result (self.new.right ≡ kept_from within end (self.old.right ++ at_port 1 inputs.now)) }
        ensures keys { self.new.keys ≡ self.old.keys }
    {
        self.give_added(alloc, within, inputs, sink, out)?;
        self.forget(within, end);
        Ok(())
    }
}
