//! The values of a tuple.
ghost use Rattle.std.specs.Prelude.{◌≡◌, ◌≤◌, ◌∷◌, ◌++◌, [], length, take, IfOk, OnOk};
ghost use Rattle.dpc_lists.specs.Held.{values_held, IsHeld};

use crate::exact::{Exact, are_same};
use std::alloc::{AllocError, Global};
use std::marker::Model;

/// How many values need no memory: a group and four totals.
const ROOM: usize = 5;

/// Where values lie.
#[derive(Drop)]
enum Held {
    /// The first so many of these.
    Few(u8, [i64; ROOM]),
    Many(Vec<i64>),
}

/// The values of a tuple, one for each column. Up to five lie in the tuple itself, and more in an
/// allocation. Contracts see a list.
#[derive(Drop)]
pub struct Vals {
    held: Held,
    alloc: Global,
}

impl Model for Vals {
    ghost use Rattle.std.specs.Prelude.{List, ℤ};
    ghost use Rattle.dpc_lists.specs.Held.{values_held, IsHeld};

    ghost Value = { List ℤ };

    ghost view = { λ v. values_held v.held };

    ghost invariant = { λ v. IsHeld v.held };
}

/// These values and one more, in an allocation.
fn moved_out(alloc: Global, values: &[i64], value: i64) -> Result<Vec<i64>, AllocError>
    ensures { IfOk result (λ many. many.items ≡ values.now ++ value ∷ []) }
{
    let mut many = Vec::with_capacity(alloc, 2 * ROOM)?;
    many.extend_from_slice(values)?;
    many.push(value)?;
    Ok(many)
}

impl Vals {
    /// No value. It takes no memory.
    #[inline]
    pub fn new(alloc: Global) -> Vals
        ensures { result ≡ [] }
    {
        Vals {
            held: Held::Few(0, [0; ROOM]),
            alloc,
        }
    }

    /// No value, and room for so many.
    pub fn with_capacity(alloc: Global, room: usize) -> Result<Vals, AllocError>
        ensures { IfOk result (λ v. v ≡ []) }
    {
        if room <= ROOM {
            return Ok(Vals::new(alloc));
        }
        let many = Vec::with_capacity(alloc, room)?;
        Ok(Vals {
            held: Held::Many(many),
            alloc,
        })
    }

    /// These values.
    pub fn from_slice(alloc: Global, values: &[i64]) -> Result<Vals, AllocError>
        ensures { IfOk result (λ v. v ≡ values.now) }
    {
        let mut vals = Vals::with_capacity(alloc, values.len())?;
        vals.extend_from_slice(values)?;
        Ok(vals)
    }

    /// The values as a slice.
    #[inline]
    pub fn as_slice(&self) -> &[i64]
        ensures { result.now ≡ self.now }
    {
        match &self.held {
            Held::Few(count, values) => &values[..*count as usize],
            Held::Many(values) => values.as_slice(),
        }
    }

    /// How many values there are.
    #[inline]
    pub fn len(&self) -> usize
        ensures { result ≡ length self.now }
    {
        self.as_slice().len()
    }

    /// Appends a value.
    #[inline]
    pub fn push(&mut self, value: i64) -> Result<(), AllocError>
        ensures { OnOk result (self.new ≡ self.old ++ value ∷ []) }
    {
        match self.held {
            Held::Few(count, ref mut values) if (count as usize) < ROOM => {
                values[count as usize] = value;
                if let Held::Few(ref mut count, _) = self.held {
                    *count += 1;
                }
            }
            Held::Few(count, values) => {
                let many = moved_out(self.alloc, &values[..count as usize], value)?;
                self.held = Held::Many(many);
            }
            Held::Many(ref mut values) => values.push(value)?,
        }
        Ok(())
    }

    /// Appends values.
    pub fn extend_from_slice(&mut self, values: &[i64]) -> Result<(), AllocError>
        ensures { OnOk result (self.new ≡ self.old ++ values.now) }
    {
        for value in values {
            self.push(*value)?;
        }
        Ok(())
    }
}

impl Exact for Vals {
    #[inline]
    fn copy(&self, alloc: Global) -> Result<Vals, AllocError> {
        let held = match &self.held {
            Held::Few(count, values) => Held::Few(*count, *values),
            Held::Many(values) => Held::Many(values.clone()?),
        };
        Ok(Vals { held, alloc })
    }

    fn same(&self, other: &Vals) -> bool {
        are_same(self.as_slice(), other.as_slice())
    }
}
