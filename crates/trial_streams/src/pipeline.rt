//! A node without operators: batches go through an inlet, its buckets, and an output with two readers.
use dpc_lists::exact::Exact;
use dpc_lists::faults::NoMemory;
use dpc_lists::lists::Listed;
use dpc_lists::shared::Shared;
use dpc_model::messages::{NodeState, Sess, Subscribe};
use dpc_model::tuples::{Item, Tuple, Vals};
use soutput::fresh::Fresh;
use soutput::output::SOutput;
use std::alloc::{AllocError, Global};
use sunion::sunion::{SUnion, Verdict};

/// How many units of time a bucket has, and how many tuples a batch.
pub const WIDTH: u64 = 100;

const FIRST: Sess = Sess { inc: 1, number: 1 };

/// Why a run stopped.
#[derive(Clone, Copy, PartialEq, Eq, Debug)]
pub enum Trouble {
    NoMemory,
    /// A batch was not used, or a number left its range.
    Odd,
}

impl From<NoMemory> for Trouble {
    fn from(_fault: NoMemory) -> Trouble {
        Trouble::NoMemory
    }
}

impl From<AllocError> for Trouble {
    fn from(_fault: AllocError) -> Trouble {
        Trouble::NoMemory
    }
}

/// One port, and an output with two readers, of which the second one acknowledges late.
#[derive(Drop)]
pub struct Pipeline {
    inputs: SUnion,
    output: SOutput,
    /// How many tuples late the second reader acknowledges.
    late: u64,
}

/// The next batch of a source: a bucket of tuples from this time on, and the boundary behind them.
pub fn batch(alloc: Global, time: u64) -> Result<Shared<Item>, Trouble> {
    let mut items = Vec::new(alloc);
    for i in 0..WIDTH {
        let number = time.saturating_add(i);
        let vals = Vals::from_slice(alloc, &[1])?;
        let tuple = Tuple {
            stime: number,
            vals,
        };
        if items.push(Item::Stable(number, tuple)).is_err() {
            return Err(Trouble::NoMemory);
        }
    }
    let end = time.saturating_add(WIDTH);
    if items.push(Item::Boundary(end, end)).is_err() {
        return Err(Trouble::NoMemory);
    }
    Ok(Shared::from_vec(items)?)
}

/// A reader asks for the whole stream.
fn subscribe(alloc: Global, output: &mut SOutput, reader: usize) -> Result<(), Trouble> {
    if reader >= output.readers() {
        return Err(Trouble::Odd);
    }
    let asked = Subscribe {
        sess: FIRST,
        n: 0,
        tentative: false,
    };
    output.open_session(alloc, reader, asked, NodeState::Stable)?;
    Ok(())
}

/// A reader acknowledges.
fn acknowledge(output: &mut SOutput, reader: usize, count: u64) {
    if reader < output.readers() {
        output.ack(reader, 1, count);
    }
}

impl Pipeline {
    /// The pipeline of a stream of so many tuples.
    pub fn new(alloc: Global, tuples: u64, late: u64) -> Result<Pipeline, Trouble> {
        let inputs = SUnion::new(alloc, 1, WIDTH, tuples, 0, 1)?;
        let mut output = SOutput::new(alloc, 2)?;
        subscribe(alloc, &mut output, 0)?;
        subscribe(alloc, &mut output, 1)?;
        Ok(Pipeline {
            inputs,
            output,
            late,
        })
    }

    /// Takes the batch of this index, processes what is complete, and lets the readers acknowledge.
    /// How many items were sent.
    pub fn step(
        &mut self,
        alloc: Global,
        index: u64,
        items: &Shared<Item>,
    ) -> Result<usize, Trouble> {
        self.accept(alloc, index, items)?;
        let stable = self.mill(alloc)?;
        let sent = self.give(alloc, stable)?;
        let count = self.output.buffer().count();
        acknowledge(&mut self.output, 0, count);
        acknowledge(&mut self.output, 1, count.saturating_sub(self.late));
        Ok(sent)
    }

    /// How many tuples the output keeps.
    pub fn kept(&self) -> usize {
        self.output.buffer().kept().len()
    }

    fn accept(&mut self, alloc: Global, index: u64, items: &Shared<Item>) -> Result<(), Trouble> {
        if self.inputs.ports() == 0 {
            return Err(Trouble::Odd);
        }
        let inlet = self.inputs.inlet(0);
        let room = inlet.count().checked_add(items.len() as u64);
        if room.is_none() || inlet.next() == u64::MAX {
            return Err(Trouble::Odd);
        }
        match self.inputs.accept(alloc, 0, FIRST, index, items, index)? {
            Verdict::Used => Ok(()),
            Verdict::Old | Verdict::Broken => Err(Trouble::Odd),
        }
    }

    /// The tuples of the complete buckets, in order.
    fn mill(&mut self, alloc: Global) -> Result<Vec<Tuple>, Trouble> {
        let mut tuples = Vec::new(alloc);
        for _ in 0..self.inputs.ready() {
            self.mill_one(alloc, &mut tuples)?;
        }
        Ok(tuples)
    }

    /// Appends the tuples of the next bucket, and moves on.
    fn mill_one(&mut self, alloc: Global, tuples: &mut Vec<Tuple>) -> Result<(), Trouble> {
        let k = self.inputs.cursor();
        let end = (u128::from(k) + 1) * u128::from(self.inputs.width());
        if end > u128::from(u64::MAX) || self.inputs.closed() != 0 {
            return Err(Trouble::Odd);
        }
        for input in self.inputs.bucket(alloc, k)? {
            if tuples.push(input.tuple).is_err() {
                return Err(Trouble::NoMemory);
            }
        }
        self.inputs.advance(1);
        Ok(())
    }

    fn give(&mut self, alloc: Global, stable: Vec<Tuple>) -> Result<usize, Trouble> {
        if !self.output.has_room(stable.len()) {
            return Err(Trouble::Odd);
        }
        let bound = self.inputs.cursor().saturating_mul(WIDTH);
        let new = Fresh {
            stable: Listed::from_vec(stable),
            bound: Some(bound),
            tentative: Listed::from_vec(Vec::new(alloc)),
            passed: None,
            done: false,
        };
        let sends = self.output.give(alloc, new)?;
        Ok(sends.len())
    }
}
