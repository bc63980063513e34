//! Statements, bound from left to right.

ghost use Rattle.std.specs.Prelude.{◌≡◌, ◌≢◌, IfErr, IfOk, Err, Ok};
ghost use Rattle.tick_parser.specs.Trees.{script_tree, stmt_tree};
ghost use Rattle.tick_vars.specs.Binding.{at_first, bound_of, bound_stmt, bound_stmts, stream_node};
ghost use Rattle.tick_vars.specs.Making.{Gives, made_by};
ghost use Rattle.tick_vars.specs.Names.{first_scope, scope_of, with_name};
ghost use Rattle.tick_vars.specs.Nodes.{arg_tree, bound_tree, node_tree};

use crate::fault::VarFault;
use crate::names::{Names, is_taken};
use crate::nodes::{Arg, Args, Bound, Props, RawNode, RawNodes};
use crate::values::{bind_chain, bind_val};
use kap_base::{Dbrp, Dbrps, Duplicate, Text};
use std::alloc::Global;
use tick_parser::{Stmt, Tree};

/// The name of node 0, and its kind.
const STREAM: &str = "stream";

/// What the statements so far have made. After a fault it is thrown away.
#[derive(Drop)]
struct Binder<'a> {
    /// What the names that are declared stand for, and `stream`.
    names: Names<'a>,
    nodes: Vec<RawNode>,
    dbrps: Vec<Dbrp>,
}

/// The name stands for this from here on.
fn put_name<'a>(names: &mut Names<'a>, name: &'a str, arg: Arg) -> Result<(), VarFault>
    ensures { Gives (λ _. scope_of names.new) result
        (Ok (with_name name.now (arg_tree arg) (scope_of names.old))) }
{
    names.insert(name, arg)?;
    Ok(())
}

/// What names stand for before the first statement: `stream` for node 0.
fn first_names<'a>(alloc: Global) -> Result<Names<'a>, VarFault>
    ensures { Gives scope_of result (Ok first_scope) }
{
    let mut names = Names::new(alloc);
    put_name(&mut names, STREAM, Arg::Node(0, 0))?;
    Ok(names)
}

/// Node 0.
fn stream(alloc: Global) -> Result<RawNode, VarFault>
    ensures { Gives node_tree result (Ok stream_node) }
{
    Ok(RawNode {
        kind: Text::from_str(alloc, STREAM)?,
        parent: 0,
        args: Args::new(alloc),
        props: Props::new(alloc),
        at: 0,
    })
}

/// What there is before the first statement.
fn begin<'a>(alloc: Global) -> Result<Binder<'a>, VarFault>
    ensures { Gives made_by result (Ok at_first) }
{
    let mut nodes = Vec::new(alloc);
    nodes.push(stream(alloc)?)?;
    Ok(Binder {
        names: first_names(alloc)?,
        nodes,
        dbrps: Vec::new(alloc),
    })
}

/// Binds one statement more.
fn bind_stmt<'a>(alloc: Global, binder: &mut Binder<'a>, stmt: &'a Stmt) -> Result<(), VarFault>
    ensures { Gives (λ _. made_by binder.new) result
        (bound_stmt (made_by binder.old) (stmt_tree stmt.now)) }
{
    match stmt {
        Stmt::Var { name, value, at } => {
            if is_taken(&binder.names, name) {
                return Err(VarFault::Twice(*at));
            }
            let arg = bind_val(alloc, &binder.names, &mut binder.nodes, value)?;
            put_name(&mut binder.names, name.as_str(), arg)?;
        }
        Stmt::Dbrp { db, rp, .. } => {
            let db = db.copy(alloc)?;
            let rp = rp.copy(alloc)?;
            binder.dbrps.push(Dbrp { db, rp })?;
        }
        Stmt::Chain(chain) => {
            bind_chain(alloc, &binder.names, &mut binder.nodes, chain)?;
        }
    }
    Ok(())
}

/// Binds all statements.
fn bind_all(alloc: Global, stmts: &[Stmt]) -> Result<Binder<'_>, VarFault>
    ensures { Gives made_by result (bound_stmts at_first (script_tree stmts.now)) }
{
    let mut binder = begin(alloc)?;
    'binding: for stmt in stmts {
        bind_stmt(alloc, &mut binder, stmt)?;
    }
    Ok(binder)
}

/// A script with its names bound (Kapacitor 1.6 TICKscript language reference: Variables, Nodes, Chaining),
/// or its first fault from left to right, as `first_fault_of_names` says. It goes over the script once. A
/// name that stands for a literal, a node or a lambda is replaced by it wherever it is used; texts and
/// lambdas are shared by all uses, so a use takes the room of an `Arg`, however long they are. `NoMemory`
/// comes where an allocation fails, and at a node that would get the number 2^32.
pub fn bind(alloc: Global, tree: &Tree) -> Result<Bound, VarFault>
    ensures bound { IfOk result (λ bound. bound_of (script_tree tree.now) ≡ Ok (bound_tree bound)) }
    ensures fault { IfErr result (λ fault. fault ≢ VarFault.NoMemory →
        bound_of (script_tree tree.now) ≡ Err fault) }
{
    let binder = bind_all(alloc, tree.as_slice())?;
    Ok(Bound {
        dbrps: Dbrps::from_items(binder.dbrps),
        nodes: RawNodes::from_items(binder.nodes),
    })
}
