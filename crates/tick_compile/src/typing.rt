//! Nodes with their lambdas typed.

ghost use Rattle.std.specs.Prelude.{◌≡◌, map};
ghost use Rattle.lambda_types.specs.Sets.{types_of};
ghost use Rattle.tick_vars.specs.Nodes.{arg_tree, arg_trees, node_tree, node_trees, prop_tree};
ghost use Rattle.tick_compile.specs.Typing.{Counts, FindsTyped, arg_fault, firsts, given_of, lambda_fault, node_of, node_type_fault, prop_fault, setting_of, takes_conditions, type_fault};

use crate::given::{Args, Given, Node, Setting, Settings};
use crate::names::is_named;
use kap_base::{Duplicate, ItemList, SharedExpr, Text};
use lambda_types::{Lambda, Patterns, Ty, TypeFault, infer, typed_without_fault};
use std::alloc::Global;
use tick_vars::{Arg, Prop, RawNode};

/// Whether the lambdas of this kind are conditions.
fn takes_conditions(kind: &Text) -> bool
    ensures { result ≡ takes_conditions kind.now }
{
    !is_named(kind, "eval")
}

/// Whether a lambda can be a condition.
fn can_be_true(lambda: &Lambda) -> bool
    ensures { result ≡ (types_of lambda.now).truth }
{
    lambda.can_be(Ty::Bool)
}

/// A lambda whose word `lambda` stands at this place.
fn typed_lambda<P: Patterns>(
    alloc: Global,
    body: &SharedExpr,
    at: u32,
    condition: bool,
    pats: &mut P,
) -> Result<Lambda, TypeFault>
    ensures finds { FindsTyped body.now (λ r. lambda_fault r condition body.now at)
        (P.refused pats.new) result }
    ensures counts { Counts result (P.refusals pats.old) (P.refusals pats.new) }
{
    typed_without_fault();
    let lambda = infer(alloc, body, pats)?;
    if condition && !can_be_true(&lambda) {
        return Err(TypeFault::Mismatch(at));
    }
    Ok(lambda)
}

fn typed_arg<P: Patterns>(
    alloc: Global,
    arg: &Arg,
    condition: bool,
    pats: &mut P,
) -> Result<Given<Lambda>, TypeFault>
    ensures finds { FindsTyped (given_of (arg_tree arg.now))
        (λ r. arg_fault r condition (arg_tree arg.now)) (P.refused pats.new) result }
    ensures counts { Counts result (P.refusals pats.old) (P.refusals pats.new) }
{
    match arg {
        Arg::Lit(lit, _) => Ok(Given::Lit(lit.copy(alloc)?)),
        Arg::Star(_) => Ok(Given::Star),
        Arg::Lambda(body, at) => {
            Ok(Given::Lambda(typed_lambda(alloc, body, *at, condition, pats)?))
        }
        Arg::Node(number, _) => Ok(Given::Node(*number)),
    }
}

fn typed_args<P: Patterns>(
    alloc: Global,
    args: &[Arg],
    condition: bool,
    pats: &mut P,
) -> Result<Args<Lambda>, TypeFault>
    ensures finds { FindsTyped (map given_of (arg_trees args.now))
        (λ r. firsts (arg_fault r condition) (arg_trees args.now)) (P.refused pats.new) result }
    ensures counts { Counts result (P.refusals pats.old) (P.refusals pats.new) }
{
    let mut givens = Args::new(alloc);
    'typing: for arg in args {
        let given = typed_arg(alloc, arg, condition, pats)?;
        givens.push(given)?;
    }
    Ok(givens)
}

fn typed_prop<P: Patterns>(
    alloc: Global,
    prop: &Prop,
    condition: bool,
    pats: &mut P,
) -> Result<Setting<Lambda>, TypeFault>
    ensures finds { FindsTyped (setting_of (prop_tree prop.now))
        (λ r. prop_fault r condition (prop_tree prop.now)) (P.refused pats.new) result }
    ensures counts { Counts result (P.refusals pats.old) (P.refusals pats.new) }
{
    let args = typed_args(alloc, prop.args.as_slice(), condition, pats)?;
    Ok(Setting {
        name: prop.name.copy(alloc)?,
        args,
        at: prop.at,
    })
}

fn typed_props<P: Patterns>(
    alloc: Global,
    props: &[Prop],
    condition: bool,
    pats: &mut P,
) -> Result<Settings<Lambda>, TypeFault>
    ensures finds { FindsTyped (map setting_of (map prop_tree props.now))
        (λ r. firsts (prop_fault r condition) (map prop_tree props.now)) (P.refused pats.new) result }
    ensures counts { Counts result (P.refusals pats.old) (P.refusals pats.new) }
{
    let mut settings = Settings::new(alloc);
    'typing: for prop in props {
        let setting = typed_prop(alloc, prop, condition, pats)?;
        settings.push(setting)?;
    }
    Ok(settings)
}

fn typed_node<P: Patterns>(
    alloc: Global,
    node: &RawNode,
    pats: &mut P,
) -> Result<Node<Lambda>, TypeFault>
    ensures finds { FindsTyped (node_of (node_tree node.now))
        (λ r. node_type_fault r (node_tree node.now)) (P.refused pats.new) result }
    ensures counts { Counts result (P.refusals pats.old) (P.refusals pats.new) }
{
    let condition = takes_conditions(&node.kind);
    let args = typed_args(alloc, node.args.as_slice(), condition, pats)?;
    let props = typed_props(alloc, node.props.as_slice(), condition, pats)?;
    Ok(Node {
        kind: node.kind.copy(alloc)?,
        parent: node.parent,
        args,
        props,
        at: node.at,
    })
}

/// The nodes of a script, with their lambdas typed.
pub(crate) fn typed_nodes<P: Patterns>(
    alloc: Global,
    nodes: &[RawNode],
    pats: &mut P,
) -> Result<ItemList<Node<Lambda>>, TypeFault>
    ensures finds { FindsTyped (map node_of (node_trees nodes.now))
        (λ r. type_fault r (node_trees nodes.now)) (P.refused pats.new) result }
    ensures counts { Counts result (P.refusals pats.old) (P.refusals pats.new) }
{
    let mut typed = ItemList::new(alloc);
    'typing: for node in nodes {
        let one = typed_node(alloc, node, pats)?;
        typed.push(one)?;
    }
    Ok(typed)
}
