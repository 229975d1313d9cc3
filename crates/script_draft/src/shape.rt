//! What can be told of an operator without its expressions.
ghost use Rattle.std.specs.Prelude.{◌≡◌};
ghost use Rattle.dpc_model.specs.declared.operators.OpKind.{OpKind};
ghost use Rattle.script_rules.specs.Reasons.{is_too_large};
ghost use Rattle.script_draft.specs.Shapes.{HasShape};

use crate::limits::{MOST_WINDOWS, MOST_WORDS};

/// What an operator reads and gives. A number of columns that are read counts up to the greatest one, and may be any number
/// above 8 where it is above 8.
#[derive(Clone, Copy)]
pub enum Shape {
    /// The columns that the test reads, and its words.
    Filter(u64, u64),
    /// The columns that the expressions read, the words of the longest one, and how many expressions there are.
    Map(u64, u64, u64),
    Union,
    /// The columns that the keys read of the left and of the right.
    Join(u64, u64),
    /// Size and step of the windows, the columns that group and aggregates read, and how many the result has.
    Aggregate(u64, u64, u64, u64),
}

impl Shape {
    /// Whether an operator of this shape has an expression of too many words, or too many windows for a tuple.
    pub fn is_too_large(self) -> bool
        ensures { (kind : OpKind) → HasShape kind self → result ≡ is_too_large kind }
    {
        match self {
            Shape::Filter(_, words) | Shape::Map(_, words, _) => words > MOST_WORDS,
            Shape::Union | Shape::Join(_, _) => false,
            Shape::Aggregate(size, step, _, _) => {
                MOST_WINDOWS * u128::from(step) < u128::from(size)
            }
        }
    }
}
