//! The nodes of a script, each fed with what the one before it gives, and another one of its kind that takes
//! over its state on the way.

ghost use Rattle.std.specs.Prelude.{◌≡◌, ◌<◌, IfOk, OnOk, map};
ghost use Rattle.kap_cases.specs.Ready.{AreReady};
ghost use Rattle.task_run.specs.Plans.{AreFirstNodes};

use crate::fault::CaseFault;
use crate::points::items;
use crate::shown::{put_effects, put_items};
use kap_base::{Bytes, Duplicate, Item, ItemList, SCRIPT_LIMIT, Text};
use lambda_types::{Patterns, RegexPatterns};
use node_core::{Effects, Items, Node, run};
use node_set::{ScriptNode, plan_task};
use state_code::Cursor;
use std::alloc::Global;
use std::vec::IntoIter;
use task_graph::Graph;
use task_run::LifePlan;
use tick_compile::compile;

/// The nodes of a plan.
fn nodes_in<N: Node>(plan: LifePlan<N>) -> Vec<N>
    requires { AreFirstNodes N.spec N.state N.first plan.nodes }
    ensures { AreReady N.spec N.state N.first N.ports result.items }
{
    let LifePlan {
        life: _,
        nodes,
        parents: _,
    } = plan;
    nodes.into_items()
}

/// The graph of a script, where it has one.
fn graph_of_script<P: Patterns>(
    alloc: Global,
    script: &str,
    pats: &mut P,
) -> Result<Graph, CaseFault> {
    if script.len() > SCRIPT_LIMIT {
        return Err(CaseFault::NoNodes);
    }
    match compile(alloc, script.as_bytes(), pats) {
        Ok(task) => Ok(task.graph),
        Err(_) => Err(CaseFault::NoNodes),
    }
}

/// The nodes of a script, in life 1 of task `t`, in their first states.
fn nodes_of<N: ScriptNode>(alloc: Global, script: &str) -> Result<Vec<N>, CaseFault>
    ensures { IfOk result (λ nodes. AreReady N.spec N.state N.first N.ports nodes.items) }
{
    let mut pats = RegexPatterns::new(alloc, Vec::new(alloc));
    let graph = graph_of_script(alloc, script, &mut pats)?;
    let id = Text::from_str(alloc, "t")?;
    let made = plan_task::<N>(alloc, &id, 1, graph)?;
    Ok(nodes_in(made.plan))
}

/// Items that all come at port 0.
fn at_port_zero(alloc: Global, items: Vec<Item>) -> Result<Vec<(u32, Item)>, CaseFault>
    ensures { IfOk result (λ inputs. inputs.items ≡ map (λ item. (0, item)) items.items) }
{
    Ok(items.into_iter().map(|item| (0, item)).collect(alloc)?)
}

/// What a node in its first state gives of items; what it does is added as text.
fn play<N: Node>(
    alloc: Global,
    node: &mut N,
    items: Items,
    text: &mut Bytes,
) -> Result<Items, CaseFault>
    requires first { N.state node.old ≡ N.first (N.spec node.old) }
    requires port { 0 < N.ports (N.spec node.old) }
    ensures { OnOk result (N.spec node.new ≡ N.spec node.old) }
{
    let inputs = at_port_zero(alloc, items.into_items())?;
    let mut out = ItemList::new(alloc);
    let mut effects = ItemList::new(alloc);
    run(alloc, node, inputs, &mut out, &mut effects)?;
    put_effects(&effects, text, alloc)?;
    Ok(out)
}

/// Feeds the rest of items to a node.
fn feed_rest<N: Node>(
    alloc: Global,
    node: &mut N,
    mut rest: IntoIter<Item>,
    out: &mut Items,
    effects: &mut Effects,
) -> Result<(), CaseFault>
    requires { 0 < N.ports (N.spec node.old) }
{
    match rest.next() {
        Some(item) => {
            node.feed(alloc, 0, item, out, effects)?;
            feed_rest(alloc, node, rest, out, effects)
        }
        None => Ok(()),
    }
}

/// What a node gives of items, and what it does.
fn go_on<N: Node>(alloc: Global, node: &mut N, items: Items) -> Result<(Items, Effects), CaseFault>
    requires { 0 < N.ports (N.spec node.old) }
{
    let mut out = ItemList::new(alloc);
    let mut effects = ItemList::new(alloc);
    let rest = items.into_items().into_iter();
    feed_rest(alloc, node, rest, &mut out, &mut effects)?;
    Ok((out, effects))
}

/// Adds what a node did, and how many it dropped.
fn put_deeds(
    alloc: Global,
    effects: &Effects,
    dropped: u64,
    text: &mut Bytes,
) -> Result<(), CaseFault> {
    put_effects(effects, text, alloc)?;
    if dropped > 0 {
        let line = format!(in alloc; "dropped {dropped}\n")?;
        text.append(line.as_bytes())?;
    }
    Ok(())
}

/// Two nodes whose states are one go on with the same items. What the first one gives; what it does is added,
/// and where the second one gives, does or drops anything else, that it differs.
fn go_on_both<N: Node>(
    alloc: Global,
    one: &mut N,
    two: &mut N,
    items: Items,
    text: &mut Bytes,
) -> Result<Items, CaseFault>
    requires port { 0 < N.ports (N.spec one.old) }
    requires other_port { 0 < N.ports (N.spec two.old) }
{
    let (given, effects) = go_on(alloc, one, items.copy(alloc)?)?;
    let (others, other_effects) = go_on(alloc, two, items)?;
    put_deeds(alloc, &effects, one.dropped(), text)?;
    if given != others || effects != other_effects || one.dropped() != two.dropped() {
        text.append(b"! differs\n")?;
    }
    Ok(given)
}

/// Two nodes of one spec: the first is fed, the second takes its state, and then both go on. What the first
/// one gave, before and behind.
fn hand_over<N: Node>(
    alloc: Global,
    mut one: N,
    mut two: N,
    before: Items,
    behind: Items,
    text: &mut Bytes,
) -> Result<(Items, Items), CaseFault>
    requires first { N.state one ≡ N.first (N.spec one) }
    requires port { 0 < N.ports (N.spec one) }
    requires other_port { 0 < N.ports (N.spec two) }
{
    let given = play(alloc, &mut one, before, text)?;
    let mut state = Bytes::new(alloc);
    one.save(&mut state)?;
    let mut from = Cursor::new(state.as_slice());
    if two.load(alloc, &mut from).is_err() {
        return Err(CaseFault::NotTaken);
    }
    if !from.is_done() {
        return Err(CaseFault::NotTaken);
    }
    let next = go_on_both(alloc, &mut one, &mut two, behind, text)?;
    Ok((given, next))
}

/// The same of the nodes of a script, one after the other. What the last one gave is added.
fn hand_over_all<N: Node>(
    alloc: Global,
    mut ones: IntoIter<N>,
    mut twos: IntoIter<N>,
    before: Items,
    behind: Items,
    text: &mut Bytes,
) -> Result<(), CaseFault>
    requires ones { AreReady N.spec N.state N.first N.ports ones.rest.items }
    requires twos { AreReady N.spec N.state N.first N.ports twos.rest.items }
{
    let Some(one) = ones.next() else {
        put_items(&before, text, alloc)?;
        return put_items(&behind, text, alloc);
    };
    let two = twos.next().ok_or(CaseFault::NoNodes)?;
    let (before, behind) = hand_over(alloc, one, two, before, behind, text)?;
    hand_over_all(alloc, ones, twos, before, behind, text)
}

/// What the nodes of a script do and give, where others take over their states behind so many points.
fn told<N: ScriptNode>(
    alloc: Global,
    script: &str,
    lines: &str,
    count: u64,
) -> Result<Bytes, CaseFault> {
    let ones = nodes_of::<N>(alloc, script)?;
    let twos = nodes_of::<N>(alloc, script)?;
    let (before, behind) = items(alloc, lines, count)?;
    let mut text = Bytes::new(alloc);
    hand_over_all(
        alloc,
        ones.into_iter(),
        twos.into_iter(),
        before,
        behind,
        &mut text,
    )?;
    Ok(text)
}

/// The same of the script that is the only word, on the points of the input.
pub fn nodes_answer<N: ScriptNode>(
    alloc: Global,
    words: &[String],
    input: &[u8],
    count: &str,
) -> Result<Bytes, CaseFault> {
    let Ok(count) = count.parse::<u64>() else {
        return Err(CaseFault::NoNodes);
    };
    let Ok(lines) = str::from_utf8(input) else {
        return Err(CaseFault::NotUtf8);
    };
    match words {
        [script] => told::<N>(alloc, script.as_str(), lines, count),
        _ => Err(CaseFault::NoNodes),
    }
}
