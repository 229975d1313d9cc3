//! What a mill keeps, lent, so that it can be written without a copy.
ghost use Rattle.std.specs.Prelude.{◌≡◌};
ghost use Rattle.fragment_mill.specs.States.{part_of, SuitsItself};
ghost use Rattle.fragment_mill.specs.Views.{shown};

use crate::operator::Operator;
use dpc_model::tuples::Tuple;
use ops_window::cell_map::Cells;
use std::collections::VecDeque;

/// What an operator keeps between buckets, lent.
#[derive(Drop)]
pub enum KeptView<'a> {
    /// Nothing, as a filter, a map and a union do.
    Plain,
    /// The left and the right tuples of a join, in order of time.
    Join(&'a VecDeque<Tuple>, &'a VecDeque<Tuple>),
    /// The cells of an aggregate, which `Cells::iter` gives in order of begin and group.
    Aggregate(&'a Cells),
}

impl Operator {
    /// What it keeps, lent: where it is not spent, it suits the operator's kind at the begin of its next
    /// bucket, so `FragMill::from_parts` takes it back.
    pub fn kept(&self) -> KeptView<'_>
        ensures shown { shown result ≡ part_of self.now }
        ensures suits { SuitsItself self.now }
    {
        match self {
            Operator::Filter(_) | Operator::Map(_) | Operator::Union(_) => KeptView::Plain,
            Operator::Join(join) => {
                let (left, right) = join.sides();
                KeptView::Join(left, right)
            }
            Operator::Aggregate(aggregate) => KeptView::Aggregate(aggregate.held_cells()),
        }
    }
}
