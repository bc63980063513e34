//! Values as arguments, and chains as nodes.

ghost use Rattle.std.specs.Prelude.{◌≡◌, ◌++◌, ◌∷◌, [], length, IfOk, OnOk};
ghost use Rattle.tick_parser.specs.Trees.{joint_tree, joints_tree, val_tree, vals_tree, chain_tree};
ghost use Rattle.tick_vars.specs.Binding.{bound_links, bound_val, bound_vals, with_prop};
ghost use Rattle.tick_vars.specs.Making.{Gives, made_with};
ghost use Rattle.tick_vars.specs.Names.{scope_of};
ghost use Rattle.tick_vars.specs.Nodes.{arg_tree, arg_trees, node_trees, prop_tree};

use crate::fault::VarFault;
use crate::lambda::bind_lambda;
use crate::names::{Names, look_up};
use crate::nodes::{Arg, Args, Prop, Props, RawNode};
use kap_base::{Duplicate, NoMemory, SharedExpr};
use std::alloc::Global;
use tick_parser::{Chain, Joint, Links, Val, Vals};

/// Adds a node, and gives its number.
fn add_node(nodes: &mut Vec<RawNode>, node: RawNode) -> Result<u32, NoMemory>
    ensures number { IfOk result (λ number. number ≡ length nodes.old.items) }
    ensures added { OnOk result (nodes.new.items ≡ nodes.old.items ++ node ∷ []) }
{
    let Ok(number) = u32::try_from(nodes.len()) else {
        return Err(NoMemory);
    };
    nodes.push(node)?;
    Ok(number)
}

/// Adds a property to the node with this number.
fn add_prop(nodes: &mut [RawNode], number: u32, prop: Prop) -> Result<(), NoMemory>
    ensures { OnOk result
        (node_trees nodes.new ≡ with_prop number (prop_tree prop) (node_trees nodes.old)) }
{
    let index = number as usize;
    if index < nodes.len() {
        nodes[index].props.push(prop)?;
    }
    Ok(())
}

/// A value as an argument. It calls itself for the values in it, as deep as the parser lets them lie.
#[cycle(values)]
pub(crate) fn bind_val(
    alloc: Global,
    names: &Names,
    nodes: &mut Vec<RawNode>,
    val: &Val,
) -> Result<Arg, VarFault>
    ensures { Gives (made_with arg_tree nodes.new.items) result
        (bound_val (scope_of names.now) (node_trees nodes.old.items) (val_tree val.now)) }
{
    match val {
        Val::Lit(lit, at) => Ok(Arg::Lit(lit.copy(alloc)?, *at)),
        Val::Star(at) => Ok(Arg::Star(*at)),
        Val::Lambda(body, at) => {
            let body = bind_lambda(alloc, names, body)?;
            Ok(Arg::Lambda(SharedExpr::new(alloc, body)?, *at))
        }
        Val::Chain(chain) => bind_chain(alloc, names, nodes, chain),
    }
}

/// A chain as an argument: its last node, or what its name stands for where nothing is linked to it.
#[cycle(values)]
pub(crate) fn bind_chain(
    alloc: Global,
    names: &Names,
    nodes: &mut Vec<RawNode>,
    chain: &Chain,
) -> Result<Arg, VarFault>
    ensures { Gives (made_with arg_tree nodes.new.items) result
        (bound_val (scope_of names.now) (node_trees nodes.old.items) (chain_tree chain.now)) }
{
    let head = look_up(names, &chain.head, chain.at)?;
    match &chain.links {
        Links::End => head.copy_at(alloc, chain.at),
        Links::More(_, _) => {
            let number = head.node(chain.at)?;
            let last = bind_links(alloc, names, nodes, number, &chain.links)?;
            Ok(Arg::Node(last, chain.at))
        }
    }
}

/// The nodes and properties behind a node. It gives the last node.
#[cycle(values)]
fn bind_links(
    alloc: Global,
    names: &Names,
    nodes: &mut Vec<RawNode>,
    number: u32,
    links: &Links,
) -> Result<u32, VarFault>
    ensures { Gives (made_with (λ last. last) nodes.new.items) result
        (bound_links (scope_of names.now) (record
        { value = number; nodes = node_trees nodes.old.items }) (joints_tree links.now)) }
{
    let mut last = number;
    let mut rest = links;
    while let Links::More(joint, more) = rest {
        last = bind_joint(alloc, names, nodes, last, joint)?;
        rest = more;
    }
    Ok(last)
}

/// One node or property behind a node. It gives the node that is last then.
#[cycle(values)]
fn bind_joint(
    alloc: Global,
    names: &Names,
    nodes: &mut Vec<RawNode>,
    number: u32,
    joint: &Joint,
) -> Result<u32, VarFault>
    ensures { Gives (made_with (λ last. last) nodes.new.items) result
        (bound_links (scope_of names.now) (record
        { value = number; nodes = node_trees nodes.old.items }) (joint_tree joint.now)) }
{
    let args = bind_vals(alloc, names, nodes, &joint.args)?;
    let name = joint.name.copy(alloc)?;
    let at = joint.at;
    if joint.node {
        let node = RawNode {
            kind: name,
            parent: number,
            args,
            props: Props::new(alloc),
            at,
        };
        Ok(add_node(nodes, node)?)
    } else {
        add_prop(nodes, number, Prop { name, args, at })?;
        Ok(number)
    }
}

/// Values as arguments.
#[cycle(values)]
fn bind_vals(
    alloc: Global,
    names: &Names,
    nodes: &mut Vec<RawNode>,
    vals: &Vals,
) -> Result<Args, VarFault>
    ensures { Gives (made_with arg_trees nodes.new.items) result
        (bound_vals (scope_of names.now) (record { value = []; nodes = node_trees nodes.old.items })
        (vals_tree vals.now)) }
{
    let mut args = Args::new(alloc);
    let mut rest = vals;
    while let Vals::More(first, more) = rest {
        args.push(bind_val(alloc, names, nodes, first)?)?;
        rest = more;
    }
    Ok(args)
}
