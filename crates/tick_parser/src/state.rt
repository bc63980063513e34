//! What was read of a script so far.

ghost use Rattle.std.specs.Prelude.{◌≡◌, []};
ghost use Rattle.tick_parser.specs.Machine.{finish, step};
ghost use Rattle.tick_parser.specs.Trees.{script_tree};
ghost use Rattle.tick_parser.specs.States.{Finishes, IsCountedState, Moves, contexts_of, state_of};

use crate::fault::{ParseFault, Want};
use crate::lambda::OpenLambda;
use crate::limits::{DEPTH_LIMIT, OPERATOR_LIMIT, STATEMENT_LIMIT};
use crate::script::{Chain, Stmt, Tree, Val, Vals};
use crate::statements;
use kap_base::{ItemList, Text};
use std::alloc::Global;
use tick_lexer::Token;

/// The name of a node or a property whose arguments come.
#[derive(Drop)]
pub(crate) struct Call {
    /// It is a node, behind `|`; else a property, behind `.`.
    pub node: bool,
    pub name: Text,
    pub at: u32,
}

/// Where a value stands.
#[derive(Drop)]
pub(crate) enum Context {
    /// It is what a variable stands for.
    Variable(Text, u32),
    /// It is an argument. The links of the chain and the arguments that were read go from the last to the
    /// first.
    Argument(Chain, Call, Vals),
}

/// The statements that were read, and where the chain or value stands that is read now.
#[derive(Drop)]
pub(crate) struct Nesting {
    pub done: Vec<Stmt>,
    /// The innermost last; nothing where the chain is a statement.
    pub stack: Vec<Context>,
    /// How many parentheses of arguments are open.
    pub count: u32,
}

/// What was read so far, by what was read last. The links of a chain go from the last to the first.
#[derive(Drop)]
pub(crate) enum State {
    /// A statement may begin.
    Between(Vec<Stmt>),
    /// The word `var`.
    VarRead(Vec<Stmt>, u32),
    /// The name of a variable.
    NameRead(Vec<Stmt>, Text, u32),
    /// The database of a dbrp statement.
    DbRead(Vec<Stmt>, Text, u32),
    /// The dot of a dbrp statement.
    DotRead(Vec<Stmt>, Text, u32),
    /// The sign before a value.
    ValueNext(Nesting, Context),
    /// A minus before a value.
    MinusRead(Nesting, Context, u32),
    /// A value of which nothing more can come.
    ValueRead(Nesting, Context, Val),
    /// A part of a lambda.
    InLambda(Nesting, Context, u32, OpenLambda),
    /// The head or a link of a chain.
    ChainRead(Nesting, Chain),
    /// A pipe, or else a dot, in a chain.
    LinkRead(Nesting, Chain, bool),
    /// The name of a node or a property.
    CallRead(Nesting, Chain, Call),
    /// Its parenthesis.
    ParenRead(Nesting, Chain, Call),
}

impl Nesting {
    /// Behind these statements nothing is open.
    pub(crate) fn new(alloc: Global, done: Vec<Stmt>) -> Nesting
        ensures done { script_tree result.done.items ≡ script_tree done.items }
        ensures none { contexts_of result ≡ [] }
        ensures count { result.count ≡ 0 }
    {
        Nesting {
            done,
            stack: Vec::new(alloc),
            count: 0,
        }
    }
}

impl State {
    /// Reads a token.
    pub(crate) fn step(self, alloc: Global, token: &Token) -> Result<State, ParseFault>
        requires { IsCountedState self }
        ensures { Moves result
            (step DEPTH_LIMIT OPERATOR_LIMIT STATEMENT_LIMIT (state_of self) token.now) }
    {
        match self {
            State::Between(done) => statements::read_start(alloc, done, token),
            State::VarRead(done, at) => statements::read_name(alloc, done, at, token),
            State::NameRead(done, name, at) => statements::read_equal(alloc, done, name, at, token),
            State::DbRead(done, db, at) => statements::read_dot(done, db, at, token),
            State::DotRead(done, db, at) => statements::read_policy(alloc, done, db, at, token),
            State::ValueNext(open, context) => open.read_value(alloc, context, token),
            State::MinusRead(open, context, at) => open.read_number(context, at, token),
            State::ValueRead(open, context, value) => open.read_behind_value(
                alloc, context, value, token,
            ),
            State::InLambda(open, context, at, lambda) => open.read_lambda(
                alloc, context, at, lambda, token,
            ),
            State::ChainRead(open, chain) => open.read_in_chain(alloc, chain, token),
            State::LinkRead(open, chain, node) => open.read_link(alloc, chain, node, token),
            State::CallRead(open, chain, call) => open.read_parenthesis(chain, call, token),
            State::ParenRead(open, chain, call) => open.read_first_argument(
                alloc, chain, call, token,
            ),
        }
    }

    /// The script, where the tokens end here.
    pub(crate) fn finish(self, alloc: Global, end: u32) -> Result<Tree, ParseFault>
        requires { IsCountedState self }
        ensures { Finishes result (finish end (state_of self)) }
    {
        match self {
            State::Between(done) => Ok(ItemList::from_items(done)),
            State::VarRead(..) | State::LinkRead(..) => Err(ParseFault::Expected(Want::Name, end)),
            State::NameRead(..) => Err(ParseFault::Expected(Want::Equal, end)),
            State::DbRead(..) => Err(ParseFault::Expected(Want::Dot, end)),
            State::DotRead(..) => Err(ParseFault::Expected(Want::Ref, end)),
            State::CallRead(..) => Err(ParseFault::Expected(Want::Open, end)),
            State::ValueNext(..) | State::MinusRead(..) | State::ParenRead(..) => {
                Err(ParseFault::Expected(Want::Value, end))
            }
            State::ValueRead(open, context, value) => open.finish_value(context, value, end),
            State::InLambda(open, context, at, lambda) => open.finish_lambda(
                alloc, context, at, lambda, end,
            ),
            State::ChainRead(open, chain) => open.finish_chain(chain, end),
        }
    }
}
