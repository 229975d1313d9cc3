//! What finds the tuples of a side by their key: each leads to the one before it.
ghost use Rattle.std.specs.Prelude.{◌≡◌, ◌<◌, [], ◌∷◌, ◌++◌, length, drop, replicate, slice_set, slice_index_or, IfOk, OnOk, OnErr};
ghost use Rattle.ops_join.specs.Sides.{folded as folded_word, mix, code_of as code_at, slot_at};

use crate::ends::End;
use dpc_model::tuples::Tuple;
use std::alloc::{AllocError, Global};
use std::collections::VecDeque;

/// What a value is multiplied by in a code: odd, and with bits of all weights.
const FACTOR: u64 = 0xd6e8_feb8_6659_fd93;

/// Links between the tuples whose keys fall in one slot. A link is the number behind that of its tuple;
/// 0 leads to none, and neither does the link to a tuple that went.
#[derive(Drop)]
pub struct Chains {
    /// For each slot the link to its last tuple. There are a power of two of them, or none.
    pub heads: Vec<u64>,
    /// For each tuple the link to the one before it in its slot.
    pub before: VecDeque<u64>,
}

/// The two halves of the product of a word with the factor, joined.
#[tactic(auto, unfolding(crate::specs::Sides::folded))]
fn folded(word: u64) -> u64
    ensures { result ≡ folded_word word }
{
    let product = word as u128 * FACTOR as u128;
    (product & 0xffff_ffff_ffff_ffff) as u64 ^ (product >> 64) as u64
}

/// One more value in a code.
fn mixed(code: u64, value: i64) -> u64
    ensures { result ≡ mix code value }
{
    folded(code ^ value.cast_unsigned())
}

/// The code of a tuple's key columns.
pub fn code_of(keys: &[(u64, u64)], end: End, tuple: &Tuple) -> u64
    ensures { result ≡ code_at end keys.now tuple.now }
{
    let mut code = 0;
    for pair in keys {
        code = mixed(code, tuple.column(end.column(pair)));
    }
    code
}

/// The slot of a code.
fn slot_of(code: u64, slots: usize) -> usize
    ensures value { result ≡ slot_at slots code }
    ensures inside { 0 < slots → result < slots }
{
    (code & (slots as u64).saturating_sub(1)) as usize
}

/// The same links again.
fn copied_links(alloc: Global, links: &VecDeque<u64>) -> Result<VecDeque<u64>, AllocError>
    ensures { IfOk result (λ other. other.items ≡ links.now.items) }
{
    let (front, back) = links.as_slices();
    let mut copies = Vec::with_capacity(alloc, links.len())?;
    copies.extend_from_slice(front)?;
    copies.extend_from_slice(back)?;
    Ok(VecDeque::from_vec(copies))
}

impl Chains {
    /// Chains of no tuple, without a slot. It takes no memory.
    pub fn new(alloc: Global) -> Chains
        ensures heads { result.heads.items ≡ [] }
        ensures before { result.before.items ≡ [] }
    {
        Chains {
            heads: Vec::new(alloc),
            before: VecDeque::new(alloc),
        }
    }

    /// Chains of no tuple, with so many slots, and room for so many tuples.
    pub fn with_slots(alloc: Global, slots: usize, room: usize) -> Result<Chains, AllocError>
        ensures heads { IfOk result (λ chains. chains.heads.items ≡ replicate slots 0) }
        ensures before { IfOk result (λ chains. chains.before.items ≡ []) }
    {
        let heads = vec![in alloc; 0; slots]?;
        let before = VecDeque::with_capacity(alloc, room)?;
        Ok(Chains { heads, before })
    }

    /// Lets all tuples go, and the slots.
    pub fn clear(&mut self)
        ensures heads { self.new.heads.items ≡ [] }
        ensures before { self.new.before.items ≡ [] }
    {
        self.heads.clear();
        self.before.clear();
    }

    /// The link to the last tuple in a code's slot.
    pub fn last(&self, code: u64) -> u64
        ensures { result ≡ slice_index_or self.now.heads.items (slot_at (length self.now.heads.items) code) 0 }
    {
        let slot = slot_of(code, self.heads.len());
        self.heads.get(slot).copied().unwrap_or(0)
    }

    /// Adds a tuple of this code, to which this link leads. After an error nothing changed.
    pub fn push(&mut self, code: u64, link: u64) -> Result<(), AllocError>
        requires { 0 < length self.old.heads.items }
        ensures heads { OnOk result (self.new.heads.items
            ≡ slice_set self.old.heads.items (slot_at (length self.old.heads.items) code) link) }
        ensures before { OnOk result (self.new.before.items ≡ self.old.before.items
            ++ slice_index_or self.old.heads.items (slot_at (length self.old.heads.items) code) 0 ∷ []) }
        ensures heads_stay { OnErr result (self.new.heads.items ≡ self.old.heads.items) }
        ensures before_stay { OnErr result (self.new.before.items ≡ self.old.before.items) }
    {
        let slot = slot_of(code, self.heads.len());
        self.before.push_back(self.heads[slot])?;
        self.heads[slot] = link;
        Ok(())
    }

    /// Lets the link of the first tuple go.
    pub fn drop_first(&mut self)
        ensures heads { self.new.heads.items ≡ self.old.heads.items }
        ensures before { self.new.before.items ≡ drop 1 self.old.before.items }
    {
        self.before.pop_front();
    }

    /// The same links again.
    pub fn copy(&self, alloc: Global) -> Result<Chains, AllocError>
        ensures heads { IfOk result (λ other. other.heads.items ≡ self.now.heads.items) }
        ensures before { IfOk result (λ other. other.before.items ≡ self.now.before.items) }
    {
        let heads = Vec::from_slice(alloc, self.heads.as_slice())?;
        let before = copied_links(alloc, &self.before)?;
        Ok(Chains { heads, before })
    }
}
