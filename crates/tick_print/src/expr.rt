//! Expressions.

ghost use Rattle.std.specs.Prelude.{◌≡◌, ◌++◌, OnOk, string_bytes};
ghost use Rattle.kap_base.specs.Tree.{tree_of, trees_of};
ghost use Rattle.tick_print.specs.Print.{args_text, tree_text};

use crate::literal::{spelling, write_lit, write_quoted};
use kap_base::{Expr, Exprs, NoMemory};

/// Appends an expression.
#[cycle(print)]
pub fn write_expr(expr: &Expr, out: &mut String) -> Result<(), NoMemory>
    ensures { OnOk result (string_bytes out.new ≡ string_bytes out.old ++ tree_text
        (tree_of expr.now)) }
{
    match expr {
        Expr::Lit(lit, _at) => write_lit(lit, out),
        Expr::Ref(name, _at) => write_quoted('"', name.as_str(), out),
        Expr::Name(name, _at) => Ok(out.push_str(name.as_str())?),
        Expr::Call(name, args, _at) => {
            out.push_str(name.as_str())?;
            out.push_str("(")?;
            write_args(args, out)
        }
        Expr::Group(inner, _at) => {
            out.push_str("(")?;
            write_expr(inner, out)?;
            Ok(out.push_str(")")?)
        }
        Expr::Neg(operand, _at) => {
            out.push_str("-")?;
            write_expr(operand, out)
        }
        Expr::Not(operand, _at) => {
            out.push_str("!")?;
            write_expr(operand, out)
        }
        Expr::Bin(op, left, right, _at) => {
            write_expr(left, out)?;
            out.push_str(" ")?;
            out.push_str(spelling(*op))?;
            out.push_str(" ")?;
            write_expr(right, out)
        }
    }
}

/// Appends arguments, and the parenthesis behind them.
#[cycle(print)]
fn write_args(args: &Exprs, out: &mut String) -> Result<(), NoMemory>
    ensures { OnOk result (string_bytes out.new ≡ string_bytes out.old ++ args_text
        (trees_of args.now)) }
{
    let mut rest = args;
    let mut is_first = true;
    while let Exprs::More(first, more) = rest {
        if !is_first {
            out.push_str(", ")?;
        }
        write_expr(first, out)?;
        is_first = false;
        rest = more;
    }
    Ok(out.push_str(")")?)
}
