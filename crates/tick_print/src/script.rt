//! Statements, chains and values.

ghost use Rattle.std.specs.Prelude.{◌≡◌, ◌++◌, IfOk, OnOk, string_bytes};
ghost use Rattle.tick_parser.specs.Trees.{joints_tree, script_tree, stmt_tree, val_tree, vals_tree};
ghost use Rattle.tick_print.specs.Print.{joints_text, script_text, stmt_text, val_text, vals_text};

use crate::expr::write_expr;
use crate::literal::{write_lit, write_quoted};
use kap_base::{NoMemory, Text};
use std::alloc::Global;
use tick_parser::{Links, Stmt, Tree, Val, Vals};

/// Appends a value.
#[cycle(print)]
fn write_val(val: &Val, out: &mut String) -> Result<(), NoMemory>
    ensures { OnOk result (string_bytes out.new ≡ string_bytes out.old ++ val_text
        (val_tree val.now)) }
{
    match val {
        Val::Lit(lit, _at) => write_lit(lit, out),
        Val::Star(_at) => Ok(out.push_str("*")?),
        Val::Lambda(body, _at) => {
            out.push_str("lambda: ")?;
            write_expr(body, out)
        }
        Val::Chain(chain) => {
            out.push_str(chain.head.as_str())?;
            write_links(&chain.links, out)
        }
    }
}

/// Appends arguments, and the parenthesis behind them.
#[cycle(print)]
fn write_vals(vals: &Vals, out: &mut String) -> Result<(), NoMemory>
    ensures { OnOk result (string_bytes out.new ≡ string_bytes out.old ++ vals_text
        (vals_tree vals.now)) }
{
    let mut rest = vals;
    let mut is_first = true;
    while let Vals::More(first, more) = rest {
        if !is_first {
            out.push_str(", ")?;
        }
        write_val(first, out)?;
        is_first = false;
        rest = more;
    }
    Ok(out.push_str(")")?)
}

/// Appends nodes and properties.
#[cycle(print)]
fn write_links(links: &Links, out: &mut String) -> Result<(), NoMemory>
    ensures { OnOk result (string_bytes out.new ≡ string_bytes out.old ++ joints_text
        (joints_tree links.now)) }
{
    let mut rest = links;
    while let Links::More(joint, more) = rest {
        out.push_str(if joint.node { "|" } else { "." })?;
        out.push_str(joint.name.as_str())?;
        out.push_str("(")?;
        write_vals(&joint.args, out)?;
        rest = more;
    }
    Ok(())
}

/// Appends a statement, without its line feed.
fn write_stmt(stmt: &Stmt, out: &mut String) -> Result<(), NoMemory>
    ensures { OnOk result (string_bytes out.new ≡ string_bytes out.old ++ stmt_text
        (stmt_tree stmt.now)) }
{
    match stmt {
        Stmt::Var { name, value, .. } => {
            out.push_str("var ")?;
            out.push_str(name.as_str())?;
            out.push_str(" = ")?;
            write_val(value, out)
        }
        Stmt::Dbrp { db, rp, .. } => {
            out.push_str("dbrp ")?;
            write_quoted('"', db.as_str(), out)?;
            out.push_str(".")?;
            write_quoted('"', rp.as_str(), out)
        }
        Stmt::Chain(chain) => {
            out.push_str(chain.head.as_str())?;
            write_links(&chain.links, out)
        }
    }
}

/// A script's canonical text, without its comments: each statement on a line of its own, with its line feed,
/// and single spaces around `=` and binary operators, behind commas, `var`, `dbrp` and `lambda:`, and nowhere
/// else. A string is in single quotes, or in three where it ends in a backslash; a duration has the largest
/// unit that divides it, and none is `0s` (a part of a microsecond, which no script can give, is left out).
/// It goes over the script once. `NoMemory` comes where an allocation fails. Kapacitor 1.6 TICKscript
/// language reference: Syntax; the choice among its spellings is this project's.
pub fn print(alloc: Global, tree: &Tree) -> Result<Text, NoMemory>
    ensures { IfOk result (λ text. text ≡ script_text (script_tree tree.now)) }
{
    let mut out = String::new(alloc);
    'stmts: for stmt in tree.as_slice() {
        write_stmt(stmt, &mut out)?;
        out.push_str("\n")?;
    }
    Ok(Text::from_string(out))
}
