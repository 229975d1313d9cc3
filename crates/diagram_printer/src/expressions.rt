//! Expressions, operator first.
ghost use Rattle.std.specs.Prelude.{◌≡◌, ◌∷◌, [], ◌++◌, OnOk, flat_map, codes};
ghost use Rattle.dpc_model.specs.ScriptText.{binary_word, column_word, formula_words};
ghost use Rattle.line_writer.specs.Spaces.{behind_spaces};

use dpc_lists::faults::NoMemory;
use dpc_model::expressions::{BinOp, Expr, ExprNode};
use itoa::Buffer;
use line_writer::{put_first, put_value, put_word};

/// The word of an operator with two parts.
fn binary_word(op: BinOp) -> &'static [u8]
    ensures { result.now ≡ binary_word op }
{
    match op {
        BinOp::Add => b"add",
        BinOp::Sub => b"sub",
        BinOp::Mul => b"mul",
        BinOp::Min => b"min",
        BinOp::Max => b"max",
        BinOp::Lt => b"lt",
        BinOp::Le => b"le",
        BinOp::Gt => b"gt",
        BinOp::Ge => b"ge",
        BinOp::Eq => b"eq",
        BinOp::Ne => b"ne",
        BinOp::And => b"and",
        BinOp::Or => b"or",
    }
}

/// A column behind a space.
pub fn put_column(text: &mut Vec<u8>, column: u64) -> Result<(), NoMemory>
    ensures { OnOk result (text.new.items ≡ text.old.items ++ behind_spaces (column_word column ∷ [])) }
{
    put_word(text, b"c")?;
    let mut buffer = Buffer::new();
    put_first(text, buffer.format(column).as_bytes())
}

/// The words of an expression, each behind a space.
pub fn put_expression(text: &mut Vec<u8>, expr: &Expr) -> Result<(), NoMemory>
    ensures { OnOk result (text.new.items ≡ text.old.items ++ behind_spaces (formula_words expr.now)) }
{
    match &expr.node {
        ExprNode::Col(column) => put_column(text, *column),
        ExprNode::Num(number) => put_value(text, *number),
        ExprNode::Time => put_word(text, b"time"),
        ExprNode::Neg(e) => {
            put_word(text, b"neg")?;
            put_expression(text, e)
        }
        ExprNode::Not(e) => {
            put_word(text, b"not")?;
            put_expression(text, e)
        }
        ExprNode::Bin(op, d, e) => {
            put_word(text, binary_word(*op))?;
            put_expression(text, d)?;
            put_expression(text, e)
        }
        ExprNode::If(c, d, e) => {
            put_word(text, b"if")?;
            put_expression(text, c)?;
            put_expression(text, d)?;
            put_expression(text, e)
        }
    }
}

/// The words of expressions one after another, each behind a space.
pub fn put_expressions(text: &mut Vec<u8>, exprs: &[Expr]) -> Result<(), NoMemory>
    ensures { OnOk result (text.new.items ≡ text.old.items ++ behind_spaces (flat_map formula_words exprs.now)) }
{
    for expr in exprs {
        put_expression(text, expr)?;
    }
    Ok(())
}
