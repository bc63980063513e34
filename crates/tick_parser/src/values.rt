//! What the parser does at each token of a value, and behind it.

ghost use Rattle.std.specs.Prelude.{◌≡◌, ◌+◌};
ghost use Rattle.tick_parser.specs.Trees.{script_tree, val_tree, vals_tree};
ghost use Rattle.tick_parser.specs.Grammar.{minus};
ghost use Rattle.tick_parser.specs.Machine.{argue, closed, number, opens, settle, settled, star, step, value, State as MachineState};
ghost use Rattle.tick_parser.specs.Lambdas.{finish as lambda_answer};
ghost use Rattle.tick_parser.specs.Stack.{IsCountedLambda, lambda_of};
ghost use Rattle.tick_parser.specs.States.{Finishes, IsCountedAt, Moves, call_of, chain_of, context_of, contexts_of};

use crate::chains::{lengthen, new_chain};
use crate::fault::{ParseFault, Want};
use crate::lambda::{LambdaStep, OpenLambda};
use crate::limits::{DEPTH_LIMIT, OPERATOR_LIMIT, STATEMENT_LIMIT};
use crate::script::{Chain, Tree, Val, Vals};
use crate::stack::Stack;
use crate::state::{Call, Context, Nesting, State};
use crate::statements::{push_variable, read_start};
use kap_base::{Duplicate, ItemList, Lit, Op};
use std::alloc::Global;
use tick_lexer::{Kind, Token};

/// A number or a duration with a minus before it; in a script none is written with its sign.
fn minus_of(lit: &Lit) -> Option<Lit>
    ensures { result ≡ minus lit.now }
{
    match lit {
        Lit::Int(number) if *number >= 0 => Some(Lit::Int(-*number)),
        Lit::Dur(span) if *span >= 0 => Some(Lit::Dur(-*span)),
        _ => None,
    }
}

impl Nesting {
    /// Reads a token behind an argument.
    fn read_behind_argument(
        mut self,
        alloc: Global,
        chain: Chain,
        call: Call,
        args: Vals,
        token: &Token,
    ) -> Result<State, ParseFault>
        requires { self.count ≡ opens (contexts_of self) + 1 }
        ensures { Moves result
            (argue (script_tree self.done.items) (contexts_of self) (chain_of chain) (call_of call)
            (vals_tree args) token.now.start token.now.kind) }
    {
        match &token.kind {
            Kind::CloseParen => {
                let chain = lengthen(alloc, chain, call, args.reversed())?;
                self.count -= 1;
                Ok(State::ChainRead(self, chain))
            }
            Kind::Comma => Ok(State::ValueNext(self, Context::Argument(chain, call, args))),
            _ => Err(ParseFault::Expected(Want::Close, token.start)),
        }
    }

    /// Reads a token behind a value.
    pub(crate) fn read_behind_value(
        self,
        alloc: Global,
        context: Context,
        value: Val,
        token: &Token,
    ) -> Result<State, ParseFault>
        requires { IsCountedAt self context }
        ensures { Moves result
            (settle STATEMENT_LIMIT (script_tree self.done.items) (contexts_of self)
            (context_of context) (val_tree value) token.now.start token.now.kind) }
    {
        match context {
            Context::Variable(name, at) => {
                let done = push_variable(self.done, name, value, at)?;
                read_start(alloc, done, token)
            }
            Context::Argument(chain, call, args) => {
                let args = Vals::More(Box::new(alloc, value)?, Box::new(alloc, args)?);
                self.read_behind_argument(alloc, chain, call, args, token)
            }
        }
    }

    /// Reads a star where a value comes.
    fn read_star(self, context: Context, at: u32) -> Result<State, ParseFault>
        requires { IsCountedAt self context }
        ensures { Moves result
            (star (script_tree self.done.items) (contexts_of self) (context_of context) at) }
    {
        match context {
            Context::Variable(..) => Err(ParseFault::Expected(Want::Value, at)),
            argument => Ok(State::ValueRead(self, argument, Val::Star(at))),
        }
    }

    /// Reads a token where a value comes.
    #[tactic(auto, using(crate::proofs::Stacks::contexts_push))]
    pub(crate) fn read_value(
        mut self,
        alloc: Global,
        context: Context,
        token: &Token,
    ) -> Result<State, ParseFault>
        requires { IsCountedAt self context }
        ensures { Moves result
            (value (script_tree self.done.items) (contexts_of self) (context_of context)
            token.now.start token.now.kind) }
    {
        let at = token.start;
        match &token.kind {
            Kind::Literal(lit) => {
                let value = Val::Lit(lit.copy(alloc)?, at);
                Ok(State::ValueRead(self, context, value))
            }
            Kind::Operator(Op::Sub) => Ok(State::MinusRead(self, context, at)),
            Kind::Operator(Op::Mul) => self.read_star(context, at),
            Kind::Lambda => {
                let stack = Stack {
                    frames: Vec::new(alloc),
                    open: 0,
                    count: 0,
                };
                Ok(State::InLambda(self, context, at, OpenLambda::OperandNext(stack)))
            }
            Kind::Ident(name) => {
                let chain = new_chain(name.copy(alloc)?, at);
                self.stack.push(context)?;
                Ok(State::ChainRead(self, chain))
            }
            _ => Err(ParseFault::Expected(Want::Value, at)),
        }
    }

    /// Reads a token behind a minus before a value.
    pub(crate) fn read_number(
        self,
        context: Context,
        at: u32,
        token: &Token,
    ) -> Result<State, ParseFault>
        requires { IsCountedAt self context }
        ensures { Moves result
            (number (script_tree self.done.items) (contexts_of self) (context_of context) at
            token.now.start token.now.kind) }
    {
        let Kind::Literal(plain) = &token.kind else {
            return Err(ParseFault::Expected(Want::Value, token.start));
        };
        match minus_of(plain) {
            Some(lit) => Ok(State::ValueRead(self, context, Val::Lit(lit, at))),
            None => Err(ParseFault::Expected(Want::Value, token.start)),
        }
    }

    /// Reads a token in a lambda.
    #[tactic(auto, using(crate::proofs::Stacks::within_on))]
    pub(crate) fn read_lambda(
        self,
        alloc: Global,
        context: Context,
        at: u32,
        lambda: OpenLambda,
        token: &Token,
    ) -> Result<State, ParseFault>
        requires counted { IsCountedAt self context }
        requires inside { IsCountedLambda lambda }
        ensures { Moves result
            (step DEPTH_LIMIT OPERATOR_LIMIT STATEMENT_LIMIT
            (MachineState.InLambda (script_tree self.done.items) (contexts_of self)
            (context_of context) at (lambda_of lambda)) token.now) }
    {
        match lambda.step(alloc, DEPTH_LIMIT.saturating_sub(self.count), token) {
            Ok(LambdaStep::On(lambda)) => Ok(State::InLambda(self, context, at, lambda)),
            Ok(LambdaStep::Ended(body)) => self.read_behind_value(
                alloc,
                context,
                Val::Lambda(body, at),
                token,
            ),
            Err(fault) => Err(fault),
        }
    }

    /// The script, where the tokens end behind a value.
    pub(crate) fn finish_value(
        self,
        context: Context,
        value: Val,
        end: u32,
    ) -> Result<Tree, ParseFault>
        ensures { Finishes result
            (settled end (script_tree self.done.items) (context_of context) (val_tree value)) }
    {
        match context {
            Context::Variable(name, at) => {
                let done = push_variable(self.done, name, value, at)?;
                Ok(ItemList::from_items(done))
            }
            Context::Argument(..) => Err(ParseFault::Expected(Want::Close, end)),
        }
    }

    /// The script, where the tokens end in a lambda.
    pub(crate) fn finish_lambda(
        self,
        alloc: Global,
        context: Context,
        at: u32,
        lambda: OpenLambda,
        end: u32,
    ) -> Result<Tree, ParseFault>
        requires { IsCountedLambda lambda }
        ensures { Finishes result
            (closed end (script_tree self.done.items) (context_of context) at
            (lambda_answer end (lambda_of lambda))) }
    {
        match lambda.finish(alloc, end) {
            Ok(body) => self.finish_value(context, Val::Lambda(body, at), end),
            Err(fault) => Err(fault),
        }
    }
}
