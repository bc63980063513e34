//! What the parser does at each token between statements, and in their fronts.

ghost use Rattle.std.specs.Prelude.{◌≡◌, ◌++◌, ◌∷◌, [], IfOk};
ghost use Rattle.tick_parser.specs.Trees.{VarStmt, script_tree, val_tree};
ghost use Rattle.tick_parser.specs.Machine.{assign, begin, declare, dotted, target};
ghost use Rattle.tick_parser.specs.States.{Moves};

use crate::chains::new_chain;
use crate::fault::{ParseFault, Want};
use crate::limits::STATEMENT_LIMIT;
use crate::script::{Stmt, Val};
use crate::state::{Context, Nesting, State};
use kap_base::{Duplicate, NoMemory, Text};
use std::alloc::Global;
use tick_lexer::{Kind, Token};

/// The statements with one more variable.
#[tactic(auto, using(crate::proofs::Stacks::script_push))]
pub(crate) fn push_variable(
    mut done: Vec<Stmt>,
    name: Text,
    value: Val,
    at: u32,
) -> Result<Vec<Stmt>, NoMemory>
    ensures { IfOk result (λ more. script_tree more.items ≡ script_tree done.items ++ VarStmt name
        (val_tree value) at ∷ []) }
{
    done.push(Stmt::Var { name, value, at })?;
    Ok(done)
}

/// Reads a token where a statement may begin.
#[tactic(auto, using(crate::proofs::Stacks::script_length))]
pub(crate) fn read_start(alloc: Global, done: Vec<Stmt>, token: &Token) -> Result<State, ParseFault>
    ensures { Moves result
        (begin STATEMENT_LIMIT (script_tree done.items) token.now.start token.now.kind) }
{
    let at = token.start;
    match &token.kind {
        Kind::Var => {
            if done.len() >= STATEMENT_LIMIT {
                return Err(ParseFault::TooMany(at));
            }
            Ok(State::VarRead(done, at))
        }
        Kind::Ident(name) => {
            if done.len() >= STATEMENT_LIMIT {
                return Err(ParseFault::TooMany(at));
            }
            let chain = new_chain(name.copy(alloc)?, at);
            Ok(State::ChainRead(Nesting::new(alloc, done), chain))
        }
        _ => Err(ParseFault::Expected(Want::Statement, at)),
    }
}

/// Reads a token behind `var`.
pub(crate) fn read_name(
    alloc: Global,
    done: Vec<Stmt>,
    at: u32,
    token: &Token,
) -> Result<State, ParseFault>
    ensures { Moves result (declare (script_tree done.items) at token.now.start token.now.kind) }
{
    match &token.kind {
        Kind::Ident(name) => Ok(State::NameRead(done, name.copy(alloc)?, at)),
        _ => Err(ParseFault::Expected(Want::Name, token.start)),
    }
}

/// Reads a token behind the name of a variable.
pub(crate) fn read_equal(
    alloc: Global,
    done: Vec<Stmt>,
    name: Text,
    at: u32,
    token: &Token,
) -> Result<State, ParseFault>
    ensures { Moves result
        (assign (script_tree done.items) name at token.now.start token.now.kind) }
{
    match &token.kind {
        Kind::Assign => Ok(State::ValueNext(
            Nesting::new(alloc, done),
            Context::Variable(name, at),
        )),
        _ => Err(ParseFault::Expected(Want::Equal, token.start)),
    }
}

/// Reads a token behind the database of a dbrp statement.
pub(crate) fn read_dot(
    done: Vec<Stmt>,
    db: Text,
    at: u32,
    token: &Token,
) -> Result<State, ParseFault>
    ensures { Moves result (dotted (script_tree done.items) db at token.now.start token.now.kind) }
{
    match &token.kind {
        Kind::Dot => Ok(State::DotRead(done, db, at)),
        _ => Err(ParseFault::Expected(Want::Dot, token.start)),
    }
}

/// Reads a token behind the dot of a dbrp statement.
#[tactic(auto, using(crate::proofs::Stacks::script_push))]
pub(crate) fn read_policy(
    alloc: Global,
    mut done: Vec<Stmt>,
    db: Text,
    at: u32,
    token: &Token,
) -> Result<State, ParseFault>
    ensures { Moves result (target (script_tree done.items) db at token.now.start token.now.kind) }
{
    match &token.kind {
        Kind::Reference(name) => {
            let rp = name.copy(alloc)?;
            done.push(Stmt::Dbrp { db, rp, at })?;
            Ok(State::Between(done))
        }
        _ => Err(ParseFault::Expected(Want::Ref, token.start)),
    }
}
