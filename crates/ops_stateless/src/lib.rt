//! Operators that keep no tuple, and the value of an expression.
#![tactic(auto)]

ghost use Rattle.std.specs.Prelude.{◌≡◌};
ghost use Rattle.dpc_model.specs.Values.{value_of, combine, truth as truth_of};

pub mod filter;
pub mod map;
pub mod union;

use dpc_model::expressions::{BinOp, Expr, ExprNode};
use dpc_model::tuples::Tuple;

/// 1 for true and 0 for false.
fn truth(b: bool) -> i64
    ensures { result ≡ truth_of b }
{
    if b { 1 } else { 0 }
}

/// Two values under an operator.
fn combined(op: BinOp, x: i64, y: i64) -> i64
    ensures { result ≡ combine op x y }
{
    match op {
        BinOp::Add => x.saturating_add(y),
        BinOp::Sub => x.saturating_sub(y),
        BinOp::Mul => x.saturating_mul(y),
        BinOp::Min => x.min(y),
        BinOp::Max => x.max(y),
        BinOp::Lt => truth(x < y),
        BinOp::Le => truth(x <= y),
        BinOp::Gt => truth(x > y),
        BinOp::Ge => truth(x >= y),
        BinOp::Eq => truth(x == y),
        BinOp::Ne => truth(x != y),
        BinOp::And => truth(x != 0 && y != 0),
        BinOp::Or => truth(x != 0 || y != 0),
    }
}

/// The value of an expression on a tuple. Each operator's exact result becomes the nearest value of
/// i64. A column that the tuple lacks counts as 0.
pub fn eval(expr: &Expr, t: &Tuple) -> i64
    ensures { result ≡ value_of expr.now t.now }
{
    match &expr.node {
        ExprNode::Col(c) => t.column(*c),
        ExprNode::Num(z) => *z,
        ExprNode::Time => i64::try_from(t.stime).unwrap_or(i64::MAX),
        ExprNode::Neg(e) => 0i64.saturating_sub(eval(e, t)),
        ExprNode::Not(e) => truth(eval(e, t) == 0),
        ExprNode::Bin(op, d, e) => combined(*op, eval(d, t), eval(e, t)),
        ExprNode::If(c, d, e) => if eval(c, t) != 0 {
            eval(d, t)
        } else {
            eval(e, t)
        },
    }
}
