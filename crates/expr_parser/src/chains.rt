ghost use Rattle.std.specs.Prelude.{◌≡◌, [], ◌∷◌, ◌++◌, IfOk};
ghost use Rattle.edge_base.specs.Grammar.{together};
ghost use Rattle.expr_parser.specs.Machine.{frame, negate, node_of, and_of, xor_of, chain_of};

use crate::state::Frame;
use edge_base::{Expr, Exprs, Memory};
use sqlite_items::Boxed;
use std::alloc::Global;

/// What joins the members of a chain.
#[derive(Clone, Copy, Debug, PartialEq, Eq)]
pub enum Operator {
    And,
    Xor,
    Or,
}

/// The expression under this many `not`s.
pub fn negated(alloc: Global, nots: u32, expr: Expr) -> Result<Expr, Memory>
    ensures { IfOk result (λ e. e ≡ negate nots expr) }
{
    let mut negated = expr;
    let mut left = nots;
    while 0 < left {
        negated = Expr::Not(Boxed::new(alloc, negated)?);
        left -= 1;
    }
    Ok(negated)
}

fn node_of(operator: Operator, members: Exprs) -> Expr
    ensures { result ≡ node_of operator members }
{
    match operator {
        Operator::And => Expr::And(members),
        Operator::Xor => Expr::Xor(members),
        Operator::Or => Expr::Or(members),
    }
}

/// A chain's only member, or the node of several.
#[tactic(auto, using(crate::proofs::Together::together_several))]
fn joined(operator: Operator, members: Exprs, last: Expr) -> Result<Expr, Memory>
    ensures { IfOk result (λ e. e ≡ together (node_of operator) (members ++ last ∷ [])) }
{
    let mut members = members;
    if members.is_empty() {
        return Ok(last);
    }
    members.push(last)?;
    Ok(node_of(operator, members))
}

/// The and of a level that ends with this unit.
pub fn and_of(alloc: Global, ands: Exprs, nots: u32, unit: Expr) -> Result<Expr, Memory>
    ensures { IfOk result (λ e. e ≡ and_of (frame [] [] ands nots) unit) }
{
    let unit = negated(alloc, nots, unit)?;
    joined(Operator::And, ands, unit)
}

/// The xor of a level that ends with this unit.
pub fn xor_of(
    alloc: Global,
    xors: Exprs,
    ands: Exprs,
    nots: u32,
    unit: Expr,
) -> Result<Expr, Memory>
    ensures { IfOk result (λ e. e ≡ xor_of (frame [] xors ands nots) unit) }
{
    let and = and_of(alloc, ands, nots, unit)?;
    joined(Operator::Xor, xors, and)
}

/// The chain of a level that ends with this unit.
pub fn chain_of(alloc: Global, top: Frame, unit: Expr) -> Result<Expr, Memory>
    ensures { IfOk result (λ e. e ≡ chain_of top unit) }
{
    let Frame {
        ors,
        xors,
        ands,
        nots,
    } = top;
    let xor = xor_of(alloc, xors, ands, nots, unit)?;
    joined(Operator::Or, ors, xor)
}
