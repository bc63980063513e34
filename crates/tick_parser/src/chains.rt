//! What the parser does at each token of a chain.

ghost use Rattle.std.specs.Prelude.{◌≡◌, ◌+◌, ◌&&◌, [], IfOk, bytes_eq};
ghost use Rattle.tick_lexer.specs.declared.token.Kind.TheVariants.{Reference};
ghost use Rattle.tick_parser.specs.Trees.{NoJoints, chain_tree, joints_tree, script_tree, vals_tree};
ghost use Rattle.tick_parser.specs.Script.{word_dbrp};
ghost use Rattle.tick_parser.specs.Machine.{chain_value, follow, is_bare, leave, left, link, linked, opened, opening, opens};
ghost use Rattle.tick_parser.specs.States.{Finishes, IsCounted, Moves, call_of, chain_of, contexts_of};

use crate::fault::{ParseFault, Want};
use crate::limits::{DEPTH_LIMIT, STATEMENT_LIMIT};
use crate::script::{Chain, Joint, Links, Stmt, Tree, Val, Vals};
use crate::state::{Call, Context, Nesting, State};
use crate::statements::read_start;
use kap_base::{Duplicate, ItemList, NoMemory, Text};
use std::alloc::Global;
use tick_lexer::{Kind, Token};

/// A chain of which only the name at its head was read.
pub(crate) fn new_chain(head: Text, at: u32) -> Chain
    ensures { chain_of result ≡ record { head = head; links = NoJoints; at = at } }
{
    Chain {
        head,
        links: Links::End,
        at,
    }
}

/// The chain with one more node or property.
pub(crate) fn lengthen(
    alloc: Global,
    chain: Chain,
    call: Call,
    args: Vals,
) -> Result<Chain, NoMemory>
    ensures { IfOk result (λ longer. chain_of longer ≡ linked (chain_of chain) (call_of call)
        (vals_tree args)) }
{
    let joint = Joint {
        node: call.node,
        name: call.name,
        args,
        at: call.at,
    };
    let links = Links::More(Box::new(alloc, joint)?, Box::new(alloc, chain.links)?);
    Ok(Chain {
        head: chain.head,
        links,
        at: chain.at,
    })
}

/// The chain, whole: its links in their order.
pub(crate) fn whole_of(chain: Chain) -> Chain
    ensures { chain_tree result ≡ chain_value (chain_of chain) }
{
    Chain {
        head: chain.head,
        links: chain.links.reversed(),
        at: chain.at,
    }
}

/// Whether the chain is no more than the name of a dbrp statement.
fn is_dbrp_word(chain: &Chain) -> bool
    ensures { result ≡
        (is_bare (joints_tree chain.now.links) && bytes_eq chain.now.head word_dbrp) }
{
    match chain.links {
        Links::End => chain.head.bytes() == b"dbrp".as_slice(),
        Links::More(..) => false,
    }
}

impl Nesting {
    /// Reads a token behind a chain that is a statement.
    #[tactic(auto, using(crate::proofs::Stacks::script_push))]
    fn end_statement(
        mut self,
        alloc: Global,
        chain: Chain,
        token: &Token,
    ) -> Result<State, ParseFault>
        ensures { Moves result
            (leave STATEMENT_LIMIT (script_tree self.done.items) [] (chain_of chain) token.now.start
            token.now.kind) }
    {
        self.done.push(Stmt::Chain(whole_of(chain)))?;
        read_start(alloc, self.done, token)
    }

    /// Reads a token that isn't part of the chain that was read.
    #[tactic(auto, using(crate::proofs::Stacks::contexts_push))]
    fn leave_chain(
        mut self,
        alloc: Global,
        chain: Chain,
        token: &Token,
    ) -> Result<State, ParseFault>
        requires { IsCounted self }
        ensures { Moves result
            (leave STATEMENT_LIMIT (script_tree self.done.items) (contexts_of self) (chain_of chain)
            token.now.start token.now.kind) }
    {
        match self.stack.pop() {
            None => self.end_statement(alloc, chain, token),
            Some(context) => self.read_behind_value(
                alloc,
                context,
                Val::Chain(whole_of(chain)),
                token,
            ),
        }
    }

    /// Reads a reference behind a chain: that of a dbrp statement, if no more than its name was read.
    #[tactic(auto, using(crate::proofs::Stacks::contexts_push))]
    fn read_reference(
        mut self,
        alloc: Global,
        chain: Chain,
        db: &Text,
        token: &Token,
    ) -> Result<State, ParseFault>
        requires counted { IsCounted self }
        requires reference { token.now.kind ≡ Reference db.now }
        ensures { Moves result
            (follow STATEMENT_LIMIT (script_tree self.done.items) (contexts_of self)
            (chain_of chain) token.now.start token.now.kind) }
    {
        match self.stack.pop() {
            None => {
                if is_dbrp_word(&chain) {
                    return Ok(State::DbRead(self.done, db.copy(alloc)?, chain.at));
                }
                self.end_statement(alloc, chain, token)
            }
            Some(context) => self.read_behind_value(
                alloc,
                context,
                Val::Chain(whole_of(chain)),
                token,
            ),
        }
    }

    /// Reads a token in a chain, behind its head or a link.
    pub(crate) fn read_in_chain(
        self,
        alloc: Global,
        chain: Chain,
        token: &Token,
    ) -> Result<State, ParseFault>
        requires { IsCounted self }
        ensures { Moves result
            (follow STATEMENT_LIMIT (script_tree self.done.items) (contexts_of self)
            (chain_of chain) token.now.start token.now.kind) }
    {
        match &token.kind {
            Kind::Pipe => Ok(State::LinkRead(self, chain, true)),
            Kind::Dot => Ok(State::LinkRead(self, chain, false)),
            Kind::Reference(db) => self.read_reference(alloc, chain, db, token),
            _ => self.leave_chain(alloc, chain, token),
        }
    }

    /// Reads a token behind a pipe or a dot.
    pub(crate) fn read_link(
        self,
        alloc: Global,
        chain: Chain,
        node: bool,
        token: &Token,
    ) -> Result<State, ParseFault>
        requires { IsCounted self }
        ensures { Moves result
            (link (script_tree self.done.items) (contexts_of self) (chain_of chain) node
            token.now.start token.now.kind) }
    {
        match &token.kind {
            Kind::Ident(name) => {
                let call = Call {
                    node,
                    name: name.copy(alloc)?,
                    at: token.start,
                };
                Ok(State::CallRead(self, chain, call))
            }
            _ => Err(ParseFault::Expected(Want::Name, token.start)),
        }
    }

    /// Reads a token behind the name of a node or a property.
    pub(crate) fn read_parenthesis(
        mut self,
        chain: Chain,
        call: Call,
        token: &Token,
    ) -> Result<State, ParseFault>
        requires { IsCounted self }
        ensures { Moves result
            (opening DEPTH_LIMIT (script_tree self.done.items) (contexts_of self) (chain_of chain)
            (call_of call) token.now.start token.now.kind) }
    {
        match &token.kind {
            Kind::OpenParen => {
                if self.count >= DEPTH_LIMIT {
                    return Err(ParseFault::Deep(token.start));
                }
                self.count += 1;
                Ok(State::ParenRead(self, chain, call))
            }
            _ => Err(ParseFault::Expected(Want::Open, token.start)),
        }
    }

    /// Reads a token where arguments were opened.
    pub(crate) fn read_first_argument(
        mut self,
        alloc: Global,
        chain: Chain,
        call: Call,
        token: &Token,
    ) -> Result<State, ParseFault>
        requires { self.count ≡ opens (contexts_of self) + 1 }
        ensures { Moves result
            (opened (script_tree self.done.items) (contexts_of self) (chain_of chain) (call_of call)
            token.now.start token.now.kind) }
    {
        match &token.kind {
            Kind::CloseParen => {
                let chain = lengthen(alloc, chain, call, Vals::End)?;
                self.count -= 1;
                Ok(State::ChainRead(self, chain))
            }
            _ => self.read_value(alloc, Context::Argument(chain, call, Vals::End), token),
        }
    }

    /// The script, where the tokens end behind a chain.
    #[tactic(auto, using(crate::proofs::Stacks::contexts_push, crate::proofs::Stacks::script_push))]
    pub(crate) fn finish_chain(mut self, chain: Chain, end: u32) -> Result<Tree, ParseFault>
        ensures { Finishes result
            (left end (script_tree self.done.items) (contexts_of self) (chain_of chain)) }
    {
        match self.stack.pop() {
            None => {
                self.done.push(Stmt::Chain(whole_of(chain)))?;
                Ok(ItemList::from_items(self.done))
            }
            Some(context) => self.finish_value(context, Val::Chain(whole_of(chain)), end),
        }
    }
}
