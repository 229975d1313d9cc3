//! The words of expressions and of aggregates.
ghost use Rattle.std.specs.Prelude.{◌≡◌, ℕ, drop, is_some, option_map};
ghost use Rattle.script_rules.specs.Symbols as spec;
ghost use Rattle.script_rules.specs.Keywords.{looked_up};
ghost use Rattle.script_words.specs.Symbols.{StandsFor, IsNamed};
ghost use Rattle.dpc_model.specs.declared.operators.Agg as agg;

use crate::keywords::is;
use crate::spelling::{column_of, looks_like_value, value};
use dpc_model::expressions::BinOp;
use dpc_model::operators::Agg;

/// What a word of an expression is.
#[derive(Clone, Copy)]
pub enum Symbol {
    Column(u64),
    /// A word that begins with a digit or `-`, and its value where it is one of i64.
    Number(Option<i64>),
    Time,
    Neg,
    Not,
    /// An operator on two expressions.
    Two(BinOp),
    /// `if`, on three expressions.
    Three,
    /// No word of an expression.
    Foreign,
}

impl Symbol {
    ghost use Rattle.script_words.specs.Symbols.{meant, lacks_value};

    /// On how many expressions it is an operator.
    pub fn operands(self) -> u64
        ensures { result ≡ spec.operands (meant self) }
    {
        match self {
            Symbol::Column(_) | Symbol::Number(_) | Symbol::Time | Symbol::Foreign => 0,
            Symbol::Neg | Symbol::Not => 1,
            Symbol::Two(_) => 2,
            Symbol::Three => 3,
        }
    }

    /// Whether it is a number without a value of i64.
    pub fn lacks_value(self) -> bool
        ensures { result ≡ lacks_value self }
    {
        matches!(self, Symbol::Number(None))
    }

    /// Whether it is no word of an expression.
    pub fn is_foreign(self) -> bool
        ensures { result ≡ spec.is_foreign_symbol (meant self) }
    {
        matches!(self, Symbol::Foreign)
    }
}

/// What a word of an expression is.
pub fn symbol_of(word: &[u8]) -> Symbol
    ensures { StandsFor result word.now }
{
    if looks_like_value(word) {
        return Symbol::Number(value(word));
    }
    match column_of(word) {
        Some(column) => Symbol::Column(column),
        None => named(word),
    }
}

/// What a word is that is neither a value nor a column.
fn named(word: &[u8]) -> Symbol
    ensures { IsNamed spec.symbols result word.now }
{
    if is(word, b"time") {
        Symbol::Time
    } else if is(word, b"neg") {
        Symbol::Neg
    } else if is(word, b"not") {
        Symbol::Not
    } else {
        operator(word)
    }
}

/// What a word is that is an operator on two or three expressions, or none.
fn operator(word: &[u8]) -> Symbol
    ensures { IsNamed (drop 3 spec.symbols) result word.now }
{
    if is(word, b"add") {
        Symbol::Two(BinOp::Add)
    } else if is(word, b"sub") {
        Symbol::Two(BinOp::Sub)
    } else if is(word, b"mul") {
        Symbol::Two(BinOp::Mul)
    } else if is(word, b"min") {
        Symbol::Two(BinOp::Min)
    } else if is(word, b"max") {
        Symbol::Two(BinOp::Max)
    } else if is(word, b"lt") {
        Symbol::Two(BinOp::Lt)
    } else if is(word, b"le") {
        Symbol::Two(BinOp::Le)
    } else if is(word, b"gt") {
        Symbol::Two(BinOp::Gt)
    } else if is(word, b"ge") {
        Symbol::Two(BinOp::Ge)
    } else if is(word, b"eq") {
        Symbol::Two(BinOp::Eq)
    } else if is(word, b"ne") {
        Symbol::Two(BinOp::Ne)
    } else if is(word, b"and") {
        Symbol::Two(BinOp::And)
    } else if is(word, b"or") {
        Symbol::Two(BinOp::Or)
    } else if is(word, b"if") {
        Symbol::Three
    } else {
        Symbol::Foreign
    }
}

/// The aggregate of a column that a word begins.
pub fn aggregate_of(word: &[u8], column: u64) -> Option<Agg>
    ensures { result ≡ option_map (λ (make : ℕ → agg.Agg). make column) (looked_up spec.aggregates word.now) }
{
    if is(word, b"count") {
        Some(Agg::Count)
    } else if is(word, b"sum") {
        Some(Agg::Sum(column))
    } else if is(word, b"min") {
        Some(Agg::Min(column))
    } else if is(word, b"max") {
        Some(Agg::Max(column))
    } else {
        None
    }
}

/// Whether a word begins an aggregate.
pub fn begins_aggregate(word: &[u8]) -> bool
    ensures { result ≡ is_some (looked_up spec.aggregates word.now) }
{
    is(word, b"count") || is(word, b"sum") || is(word, b"min") || is(word, b"max")
}
