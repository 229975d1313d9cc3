//! The expressions that the words of a line are.
ghost use Rattle.std.specs.Prelude.{◌≡◌, ◌+◌, ◌^◌, ◌<◌, ◌++◌, ◌∷◌, [], length, reverse, IfOk, OnOk, MatchOption};
ghost use Rattle.script_rules.specs.Symbols.{applied, formulas};
ghost use Rattle.script_words.specs.Cursors.{words_left};
ghost use Rattle.script_words.specs.Symbols.{meant};
ghost use Rattle.script_words.specs.Readable.{AreReadable, longest, columns_in};
ghost use Rattle.script_words.specs.Spans.{with_word, own_columns, IsColumnThere};

use crate::symbols::{Symbol, symbol_of};
use crate::words::Words;
use dpc_lists::faults::NoMemory;
use dpc_model::expressions::{Expr, ExprNode};
use std::alloc::Global;

/// The expressions that words are, one behind another. An expression is as deep as it has words: `longest_expression`
/// tells that before one is made.
pub fn read_expressions(alloc: Global, mut words: Words<'_>) -> Result<Vec<Expr>, NoMemory>
    requires { AreReadable (words_left words) }
    ensures { IfOk result (λ es. es.items ≡ formulas (words_left words.entry)) }
{
    // an operator stands before its operands, so the last word comes first
    let mut stack = Vec::new(alloc);
    while let Some(word) = words.next_back() {
        apply(alloc, &mut stack, symbol_of(word))?;
    }
    stack.reverse();
    Ok(stack)
}

/// An operator takes its operands from the expressions behind it. The first of them is the last of the stack.
fn apply(alloc: Global, stack: &mut Vec<Expr>, symbol: Symbol) -> Result<(), NoMemory>
    ensures { OnOk result (reverse stack.new.items ≡ applied (meant symbol) (reverse stack.old.items)) }
{
    let node = match symbol {
        Symbol::Column(column) => ExprNode::Col(column),
        // a number out of range is refused before
        Symbol::Number(value) => ExprNode::Num(value.unwrap_or(0)),
        Symbol::Time => ExprNode::Time,
        Symbol::Neg => {
            let Some(e) = stack.pop() else {
                return Ok(());
            };
            ExprNode::Neg(Box::new(alloc, e)?)
        }
        Symbol::Not => {
            let Some(e) = stack.pop() else {
                return Ok(());
            };
            ExprNode::Not(Box::new(alloc, e)?)
        }
        Symbol::Two(op) => {
            let Some((d, e)) = pop_two(stack) else {
                return Ok(());
            };
            ExprNode::Bin(op, Box::new(alloc, d)?, Box::new(alloc, e)?)
        }
        Symbol::Three => {
            let Some(c) = stack.pop() else {
                return Ok(());
            };
            let Some((d, e)) = pop_two(stack) else {
                return Ok(());
            };
            let test = Box::new(alloc, c)?;
            ExprNode::If(test, Box::new(alloc, d)?, Box::new(alloc, e)?)
        }
        Symbol::Foreign => {
            stack.clear();
            return Ok(());
        }
    };
    stack.push(Expr { node })?;
    Ok(())
}

/// The last expression and the one before it. Where there are fewer than two, none is left.
fn pop_two(stack: &mut Vec<Expr>) -> Option<(Expr, Expr)>
    ensures { MatchOption result ((stack.new.items ≡ [])
        × (length stack.old.items < 2)) (λ x. stack.old.items ≡ stack.new.items ++ x.1 ∷ x.0 ∷ []) }
{
    let d = stack.pop()?;
    let e = stack.pop()?;
    Some((d, e))
}

/// What was seen of expressions so far.
#[derive(Clone, Copy)]
pub struct Span {
    /// The words of the longest expression before the last one.
    pub longest: u64,
    /// The words of the last one.
    pub count: u64,
    /// How many expressions the last one still wants.
    pub wanted: u64,
}

impl Span {
    /// With a further word, an operator on so many expressions.
    fn with_word(self, operands: u64) -> Span
        requires counts { self.count + 1 < 2 ^ 64 }
        requires wants { self.wanted + operands < 2 ^ 64 }
        ensures { result ≡ with_word self operands }
    {
        if self.wanted == 0 {
            return Span {
                longest: self.longest.max(self.count),
                count: 1,
                wanted: operands,
            };
        }
        Span {
            longest: self.longest,
            count: self.count + 1,
            wanted: self.wanted - 1 + operands,
        }
    }
}

/// How many words the longest of the expressions has that words are. Nothing is made of them.
pub fn longest_expression(mut words: Words<'_>) -> u64
    requires { AreReadable (words_left words) }
    ensures { result ≡ longest (formulas (words_left words.entry)) }
{
    let mut span = Span {
        longest: 0,
        count: 0,
        wanted: 0,
    };
    while let Some(word) = words.next() {
        span = span.with_word(symbol_of(word).operands());
    }
    span.longest.max(span.count)
}

/// The columns up to the last one that the expressions read that words are. Nothing is made of them.
pub fn columns_read(mut words: Words<'_>) -> u64
    requires { AreReadable (words_left words) }
    ensures { result ≡ columns_in (formulas (words_left words.entry)) }
{
    let mut columns: u64 = 0;
    while let Some(word) = words.next() {
        columns = columns.max(own_columns(symbol_of(word)));
    }
    columns
}

/// The columns up to the one that a word is.
fn own_columns(symbol: Symbol) -> u64
    requires { IsColumnThere symbol }
    ensures { result ≡ own_columns symbol }
{
    match symbol {
        Symbol::Column(column) => column + 1,
        _ => 0,
    }
}
