//! What the names of a script stand for.

ghost use Rattle.std.specs.Prelude.{◌≡◌, IfErr, IfOk, Err, Ok};
ghost use Rattle.kap_base.specs.Tree.{tree_of};
ghost use Rattle.tick_vars.specs.Making.{Gives};
ghost use Rattle.tick_vars.specs.Names.{as_node, as_value, handed_on, is_batch, is_taken, looked_up, scope_of};
ghost use Rattle.tick_vars.specs.Nodes.{arg_tree};

use crate::fault::VarFault;
use crate::nodes::Arg;
use kap_base::{Duplicate, Expr, Lit, Text};
use std::alloc::Global;
use std::collections::HashMap;

/// What the names so far stand for: the argument that each would be. The names are lent by the script.
pub(crate) type Names<'a> = HashMap<&'a str, Arg>;

/// Whether this is the name that stands for nothing, and is never unknown.
fn is_batch(name: &Text) -> bool
    ensures { result ≡ is_batch name.now }
{
    name.bytes() == b"batch".as_slice()
}

/// Whether no `var` may declare the name.
pub(crate) fn is_taken(names: &Names, name: &Text) -> bool
    ensures { result ≡ is_taken (scope_of names.now) name.now }
{
    is_batch(name) || names.contains_key(name.as_str())
}

/// What the name at this place stands for.
pub(crate) fn look_up<'a>(names: &'a Names, name: &Text, at: u32) -> Result<&'a Arg, VarFault>
    ensures arg { IfOk result
        (λ arg. looked_up (scope_of names.now) name.now at ≡ Ok (arg_tree arg.now)) }
    ensures fault { IfErr result (λ fault. looked_up (scope_of names.now) name.now at ≡ Err fault) }
{
    if is_batch(name) {
        return Err(VarFault::Batch(at));
    }
    match names.get(name.as_str()) {
        Some(arg) => Ok(arg),
        None => Err(VarFault::Unknown(at)),
    }
}

impl Arg {
    /// The argument that is handed on by a name at this place, which stands for this one.
    pub(crate) fn copy_at(&self, alloc: Global, at: u32) -> Result<Arg, VarFault>
        ensures { Gives arg_tree result (Ok (handed_on at (arg_tree self.now))) }
    {
        match self {
            Arg::Lit(lit, _) => Ok(Arg::Lit(lit.copy(alloc)?, at)),
            Arg::Star(_) => Ok(Arg::Star(at)),
            Arg::Lambda(body, place) => Ok(Arg::Lambda(body.copy(alloc)?, *place)),
            Arg::Node(number, _) => Ok(Arg::Node(*number, at)),
        }
    }

    /// The number of the node for which a name at this place stands.
    pub(crate) fn node(&self, at: u32) -> Result<u32, VarFault>
        ensures { Gives (λ number. number) result (as_node at (arg_tree self.now)) }
    {
        match self {
            Arg::Node(number, _) => Ok(*number),
            Arg::Lit(_, _) | Arg::Star(_) | Arg::Lambda(_, _) => Err(VarFault::NotNode(at)),
        }
    }

    /// The value for which a name at this place of a lambda stands.
    pub(crate) fn value(&self, alloc: Global, at: u32) -> Result<Expr, VarFault>
        ensures { Gives tree_of result (as_value at (arg_tree self.now)) }
    {
        match self {
            Arg::Lit(Lit::Dur(_), _) => Err(VarFault::NotValue(at)),
            Arg::Lit(lit, _) => Ok(Expr::Lit(lit.copy(alloc)?, at)),
            Arg::Star(_) | Arg::Lambda(_, _) | Arg::Node(_, _) => Err(VarFault::NotValue(at)),
        }
    }
}
