//! Expressions over the columns and the time of a tuple.
use dpc_lists::exact::Exact;
use std::alloc::{AllocError, Global};
use std::marker::Model;

/// An operator of an expression with two parts.
#[derive(Clone, Copy, PartialEq, Eq)]
pub enum BinOp {
    Add,
    Sub,
    Mul,
    Min,
    Max,
    Lt,
    Le,
    Gt,
    Ge,
    Eq,
    Ne,
    And,
    Or,
}

/// An expression over a tuple's columns and its time. Contracts see a `Formula`.
#[cycle(expr)]
#[derive(Drop)]
pub struct Expr {
    pub node: ExprNode,
}

/// The outermost operator of an expression.
#[cycle(expr)]
#[derive(Drop)]
pub enum ExprNode {
    Col(u64),
    Num(i64),
    Time,
    Neg(Box<Expr>),
    Not(Box<Expr>),
    Bin(BinOp, Box<Expr>, Box<Expr>),
    If(Box<Expr>, Box<Expr>, Box<Expr>),
}

impl Model for Expr {
    ghost use Rattle.dpc_model.specs.Formula.{Formula};
    ghost use Rattle.dpc_model.specs.FormulaCode.{coded_formula};

    ghost Value = { Formula };

    ghost coded = { coded_formula };

    ghost use Rattle.dpc_model.specs.Formula.{words};
    ghost use Rattle.dpc_model.specs.Expressions.{formula_of};

    ghost view = { λ e. formula_of e.node };

    ghost size = { words };
}

impl Exact for Expr {
    fn copy(&self, alloc: Global) -> Result<Expr, AllocError> {
        let node = match &self.node {
            ExprNode::Col(c) => ExprNode::Col(*c),
            ExprNode::Num(z) => ExprNode::Num(*z),
            ExprNode::Time => ExprNode::Time,
            ExprNode::Neg(e) => ExprNode::Neg(Box::new(alloc, e.copy(alloc)?)?),
            ExprNode::Not(e) => ExprNode::Not(Box::new(alloc, e.copy(alloc)?)?),
            ExprNode::Bin(op, d, e) => {
                let left = Box::new(alloc, d.copy(alloc)?)?;
                ExprNode::Bin(*op, left, Box::new(alloc, e.copy(alloc)?)?)
            }
            ExprNode::If(c, d, e) => {
                let test = Box::new(alloc, c.copy(alloc)?)?;
                let yes = Box::new(alloc, d.copy(alloc)?)?;
                ExprNode::If(test, yes, Box::new(alloc, e.copy(alloc)?)?)
            }
        };
        Ok(Expr { node })
    }

    fn same(&self, other: &Expr) -> bool {
        match &self.node {
            ExprNode::Col(c) => matches!(&other.node, ExprNode::Col(d) if c == d),
            ExprNode::Num(y) => matches!(&other.node, ExprNode::Num(z) if y == z),
            ExprNode::Time => matches!(&other.node, ExprNode::Time),
            ExprNode::Neg(d) => match &other.node {
                ExprNode::Neg(e) => d.same(e),
                _ => false,
            },
            ExprNode::Not(d) => match &other.node {
                ExprNode::Not(e) => d.same(e),
                _ => false,
            },
            ExprNode::Bin(op, c, d) => match &other.node {
                ExprNode::Bin(oq, e, f) => op == oq && c.same(e) && d.same(f),
                _ => false,
            },
            ExprNode::If(b, c, d) => match &other.node {
                ExprNode::If(e, f, g) => b.same(e) && c.same(f) && d.same(g),
                _ => false,
            },
        }
    }
}
