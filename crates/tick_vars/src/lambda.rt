//! Lambdas with values in the place of names.

ghost use Rattle.kap_base.specs.Tree.{tree_of, trees_of};
ghost use Rattle.tick_vars.specs.Making.{Gives};
ghost use Rattle.tick_vars.specs.Names.{bound_lambda, bound_lambdas, scope_of};

use crate::fault::VarFault;
use crate::names::{Names, look_up};
use kap_base::{Duplicate, Expr, Exprs};
use std::alloc::Global;

/// An expression with values in the place of names. It calls itself for the parts of the expression, as deep
/// as the parser lets them lie.
#[cycle(lambda)]
pub(crate) fn bind_lambda(alloc: Global, names: &Names, expr: &Expr) -> Result<Expr, VarFault>
    ensures { Gives tree_of result (bound_lambda (scope_of names.now) (tree_of expr.now)) }
{
    match expr {
        Expr::Lit(lit, at) => Ok(Expr::Lit(lit.copy(alloc)?, *at)),
        Expr::Ref(name, at) => Ok(Expr::Ref(name.copy(alloc)?, *at)),
        Expr::Name(name, at) => look_up(names, name, *at)?.value(alloc, *at),
        Expr::Call(name, args, at) => {
            let args = bind_lambdas(alloc, names, args)?;
            Ok(Expr::Call(name.copy(alloc)?, args, *at))
        }
        Expr::Group(inner, at) => {
            let inner = bind_lambda(alloc, names, inner)?;
            Ok(Expr::Group(Box::new(alloc, inner)?, *at))
        }
        Expr::Neg(operand, at) => {
            let operand = bind_lambda(alloc, names, operand)?;
            Ok(Expr::Neg(Box::new(alloc, operand)?, *at))
        }
        Expr::Not(operand, at) => {
            let operand = bind_lambda(alloc, names, operand)?;
            Ok(Expr::Not(Box::new(alloc, operand)?, *at))
        }
        Expr::Bin(op, left, right, at) => {
            let left = bind_lambda(alloc, names, left)?;
            let right = bind_lambda(alloc, names, right)?;
            Ok(Expr::Bin(*op, Box::new(alloc, left)?, Box::new(alloc, right)?, *at))
        }
    }
}

/// The same for each of a list.
#[cycle(lambda)]
fn bind_lambdas(alloc: Global, names: &Names, exprs: &Exprs) -> Result<Exprs, VarFault>
    ensures { Gives trees_of result (bound_lambdas (scope_of names.now) (trees_of exprs.now)) }
{
    let mut turned = Exprs::End;
    let mut rest = exprs;
    while let Exprs::More(first, more) = rest {
        let first = bind_lambda(alloc, names, first)?;
        turned = Exprs::More(Box::new(alloc, first)?, Box::new(alloc, turned)?);
        rest = more;
    }
    Ok(turned.reversed())
}
