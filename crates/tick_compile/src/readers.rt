//! Arguments, read as what a node or a property takes.

ghost use Rattle.std.specs.Prelude.{◌≡◌, Some};
ghost use Rattle.kap_base.specs.Words.{Answers};
ghost use Rattle.tick_compile.specs.Words.{each, needed, only, two};
ghost use Rattle.tick_compile.specs.Sorts.{as_lambda, dimensions, is_star, nothing, one, pair};

use crate::given::{Args, Given};
use crate::node_fault::NodeFault;
use crate::sorts::Sort;
use kap_base::ItemList;
use std::alloc::Global;
use task_graph::Dims;

/// The only one of a list.
fn only<T: Drop>(items: ItemList<T>) -> Option<T>
    ensures { result ≡ only items }
{
    let mut items = items.into_items();
    if items.len() == 1 { items.pop() } else { None }
}

/// The two of a list.
fn two<T: Drop>(items: ItemList<T>) -> Option<(T, T)>
    ensures { result ≡ two items }
{
    let mut items = items.into_items();
    if items.len() != 2 {
        return None;
    }
    let second = items.pop()?;
    let first = items.pop()?;
    Some((first, second))
}

/// One of a sort.
pub(crate) fn one<L: Drop, S: Sort<L>>(
    alloc: Global,
    args: Args<L>,
    at: u32,
) -> Result<S, NodeFault>
    ensures { Answers NodeFault.NoMemory result (needed at (one S.sort args)) }
{
    let Some(given) = only(args) else {
        return Err(NodeFault::Argument(at));
    };
    match S::of_given(alloc, given)? {
        Some(value) => Ok(value),
        None => Err(NodeFault::Argument(at)),
    }
}

/// One of a sort, and then one of another.
pub(crate) fn pair<L: Drop, A: Sort<L>, B: Sort<L>>(
    alloc: Global,
    args: Args<L>,
    at: u32,
) -> Result<(A, B), NodeFault>
    ensures { Answers NodeFault.NoMemory result (needed at (pair A.sort B.sort args)) }
{
    let Some((first, second)) = two(args) else {
        return Err(NodeFault::Argument(at));
    };
    let Some(first) = A::of_given(alloc, first)? else {
        return Err(NodeFault::Argument(at));
    };
    match B::of_given(alloc, second)? {
        Some(second) => Ok((first, second)),
        None => Err(NodeFault::Argument(at)),
    }
}

/// All of a sort.
pub(crate) fn all<L: Drop, S: Sort<L>>(
    alloc: Global,
    args: Args<L>,
    at: u32,
) -> Result<ItemList<S>, NodeFault>
    ensures { Answers NodeFault.NoMemory result (needed at (each S.sort args)) }
{
    let mut values = ItemList::new(alloc);
    'reading: for given in args.into_items() {
        match S::of_given(alloc, given)? {
            Some(value) => values.push(value)?,
            None => return Err(NodeFault::Argument(at)),
        }
    }
    Ok(values)
}

/// One lambda.
pub(crate) fn lambda<L: Drop>(args: Args<L>, at: u32) -> Result<L, NodeFault>
    ensures { Answers NodeFault.NoMemory result (needed at (one as_lambda args)) }
{
    match only(args) {
        Some(Given::Lambda(lambda)) => Ok(lambda),
        _ => Err(NodeFault::Argument(at)),
    }
}

/// All lambdas.
pub(crate) fn lambdas<L: Drop>(
    alloc: Global,
    args: Args<L>,
    at: u32,
) -> Result<ItemList<L>, NodeFault>
    ensures { Answers NodeFault.NoMemory result (needed at (each as_lambda args)) }
{
    let mut lambdas = ItemList::new(alloc);
    'reading: for given in args.into_items() {
        match given {
            Given::Lambda(lambda) => lambdas.push(lambda)?,
            _ => return Err(NodeFault::Argument(at)),
        }
    }
    Ok(lambdas)
}

/// Nothing.
pub(crate) fn nothing<L: Drop>(args: Args<L>, at: u32) -> Result<(), NodeFault>
    ensures { Answers NodeFault.NoMemory result (needed at (nothing args)) }
{
    if args.len() == 0 {
        Ok(())
    } else {
        Err(NodeFault::Argument(at))
    }
}

/// Whether it is the star alone.
fn is_star<L>(args: &[Given<L>]) -> bool
    ensures { result ≡ is_star args.now }
{
    match args {
        [Given::Star] => true,
        _ => false,
    }
}

/// The star alone, or texts.
pub(crate) fn dimensions<L: Drop>(alloc: Global, args: Args<L>, at: u32) -> Result<Dims, NodeFault>
    ensures { Answers NodeFault.NoMemory result (needed at (dimensions args)) }
{
    if is_star(args.as_slice()) {
        return Ok(Dims::All);
    }
    Ok(Dims::Names(all(alloc, args, at)?))
}
