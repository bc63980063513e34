//! Nodes with their lambdas as they stand in the script.

ghost use Rattle.std.specs.Prelude.{◌≡◌, IfOk, map};
ghost use Rattle.tick_vars.specs.Nodes.{arg_tree, arg_trees, node_tree, node_trees, prop_tree};
ghost use Rattle.tick_compile.specs.Typing.{given_of, node_of, setting_of};

use crate::given::{Args, Given, Node, Setting, Settings};
use kap_base::{Duplicate, ItemList, NoMemory, SharedExpr};
use std::alloc::Global;
use tick_vars::{Arg, Prop, RawNode};

fn untyped_arg(alloc: Global, arg: &Arg) -> Result<Given<SharedExpr>, NoMemory>
    ensures { IfOk result (λ given. given ≡ given_of (arg_tree arg.now)) }
{
    match arg {
        Arg::Lit(lit, _) => Ok(Given::Lit(lit.copy(alloc)?)),
        Arg::Star(_) => Ok(Given::Star),
        Arg::Lambda(body, _) => Ok(Given::Lambda(body.copy(alloc)?)),
        Arg::Node(number, _) => Ok(Given::Node(*number)),
    }
}

fn untyped_args(alloc: Global, args: &[Arg]) -> Result<Args<SharedExpr>, NoMemory>
    ensures { IfOk result (λ givens. givens ≡ map given_of (arg_trees args.now)) }
{
    let mut givens = Args::new(alloc);
    'copying: for arg in args {
        givens.push(untyped_arg(alloc, arg)?)?;
    }
    Ok(givens)
}

fn untyped_prop(alloc: Global, prop: &Prop) -> Result<Setting<SharedExpr>, NoMemory>
    ensures { IfOk result (λ setting. setting ≡ setting_of (prop_tree prop.now)) }
{
    Ok(Setting {
        name: prop.name.copy(alloc)?,
        args: untyped_args(alloc, prop.args.as_slice())?,
        at: prop.at,
    })
}

fn untyped_props(alloc: Global, props: &[Prop]) -> Result<Settings<SharedExpr>, NoMemory>
    ensures { IfOk result (λ settings. settings ≡ map setting_of (map prop_tree props.now)) }
{
    let mut settings = Settings::new(alloc);
    'copying: for prop in props {
        settings.push(untyped_prop(alloc, prop)?)?;
    }
    Ok(settings)
}

fn untyped_node(alloc: Global, node: &RawNode) -> Result<Node<SharedExpr>, NoMemory>
    ensures { IfOk result (λ untyped. untyped ≡ node_of (node_tree node.now)) }
{
    Ok(Node {
        kind: node.kind.copy(alloc)?,
        parent: node.parent,
        args: untyped_args(alloc, node.args.as_slice())?,
        props: untyped_props(alloc, node.props.as_slice())?,
        at: node.at,
    })
}

/// The nodes of a script.
pub(crate) fn untyped_nodes(
    alloc: Global,
    nodes: &[RawNode],
) -> Result<ItemList<Node<SharedExpr>>, NoMemory>
    ensures { IfOk result (λ untyped. untyped ≡ map node_of (node_trees nodes.now)) }
{
    let mut untyped = ItemList::new(alloc);
    'copying: for node in nodes {
        untyped.push(untyped_node(alloc, node)?)?;
    }
    Ok(untyped)
}
