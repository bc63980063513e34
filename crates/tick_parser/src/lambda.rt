//! What the parser does at each token of a lambda.

ghost use Rattle.std.specs.Prelude.{◌≡◌, ◌+◌, ◌∷◌};
ghost use Rattle.kap_base.specs.Tree.{tree_of};
ghost use Rattle.tick_parser.specs.Lambdas.{after, calling, close_empty, close_top, finish, joining, leave, next_top, opened, opening, operand, opens, step};
ghost use Rattle.tick_parser.specs.Stack.{LambdaEnds, frame_of, frames_of, held_of, IsCounted, IsCountedLambda, lambda_of, LambdaMoves};

use crate::fault::{ParseFault, Want};
use crate::limits::OPERATOR_LIMIT;
use crate::stack::{Frame, HeldOperand, Stack, level_of};
use kap_base::{Duplicate, Expr, Exprs, Op};
use std::alloc::Global;
use tick_lexer::{Kind, Token};

/// What was read of a lambda so far.
#[derive(Drop)]
pub(crate) enum OpenLambda {
    /// An operand comes.
    OperandNext(Stack),
    /// A call was opened, and an operand or its end comes.
    CallOpened(Stack),
    /// An operand was read.
    OperandRead(Stack, Expr),
}

/// What a token makes of a lambda.
#[derive(Drop)]
pub(crate) enum LambdaStep {
    /// It goes on.
    On(OpenLambda),
    /// It ended before this token.
    Ended(Expr),
}

impl Stack {
    /// Puts a parenthesis or a unary operator on the stack.
    #[tactic(auto, using(crate::proofs::Stacks::frames_push))]
    fn push_open(mut self, room: u32, frame: Frame, at: u32) -> Result<LambdaStep, ParseFault>
        requires counted { IsCounted self }
        requires one { opens (frame_of frame ∷ frames_of self) ≡ opens (frames_of self) + 1 }
        ensures { LambdaMoves result
            (opening room (frame_of frame) (frames_of self) self.count at) }
    {
        if self.open >= room {
            return Err(ParseFault::Deep(at));
        }
        self.frames.push(frame)?;
        self.open += 1;
        Ok(LambdaStep::On(OpenLambda::OperandNext(self)))
    }

    /// Reads a token where an operand comes.
    fn read_operand(self, alloc: Global, room: u32, token: &Token) -> Result<LambdaStep, ParseFault>
        requires { IsCounted self }
        ensures { LambdaMoves result
            (operand room (frames_of self) self.count token.now.start token.now.kind) }
    {
        let at = token.start;
        match &token.kind {
            Kind::Literal(lit) => {
                let tree = Expr::Lit(lit.copy(alloc)?, at);
                Ok(LambdaStep::On(OpenLambda::OperandRead(self, tree)))
            }
            Kind::Reference(name) => {
                let tree = Expr::Ref(name.copy(alloc)?, at);
                Ok(LambdaStep::On(OpenLambda::OperandRead(self, tree)))
            }
            Kind::Ident(name) => {
                let tree = Expr::Name(name.copy(alloc)?, at);
                Ok(LambdaStep::On(OpenLambda::OperandRead(self, tree)))
            }
            Kind::OpenParen => self.push_open(room, Frame::Paren(at), at),
            Kind::Operator(Op::Sub) => self.push_open(room, Frame::Minus(at), at),
            Kind::Not => self.push_open(room, Frame::Negation(at), at),
            _ => Err(ParseFault::Expected(Want::Operand, at)),
        }
    }

    /// Opens the arguments of a name.
    #[tactic(auto, using(crate::proofs::Stacks::frames_push))]
    fn open_call(
        mut self,
        alloc: Global,
        room: u32,
        tree: Expr,
        at: u32,
    ) -> Result<LambdaStep, ParseFault>
        requires { IsCounted self }
        ensures { LambdaMoves result (calling room (frames_of self) self.count at (tree_of tree)) }
    {
        match tree {
            Expr::Name(name, place) => {
                if self.open >= room {
                    return Err(ParseFault::Deep(at));
                }
                self.frames.push(Frame::Args(name, Exprs::End, place))?;
                self.open += 1;
                Ok(LambdaStep::On(OpenLambda::CallOpened(self)))
            }
            tree => {
                let held = self.reduce(alloc, 0, tree)?;
                held.end_lambda(at)
            }
        }
    }

    /// Closes a call with no argument.
    #[tactic(auto, using(crate::proofs::Stacks::frames_push))]
    fn close_call(mut self, at: u32) -> Result<LambdaStep, ParseFault>
        requires { IsCounted self }
        ensures { LambdaMoves result (close_empty (frames_of self) self.count at) }
    {
        match self.frames.pop() {
            Some(Frame::Args(name, done, place)) => {
                self.open -= 1;
                let tree = Expr::Call(name, done.reversed(), place);
                Ok(LambdaStep::On(OpenLambda::OperandRead(self, tree)))
            }
            _ => Err(ParseFault::Expected(Want::Operand, at)),
        }
    }

    /// Reads a token where a call was opened.
    fn read_first_argument(
        self,
        alloc: Global,
        room: u32,
        token: &Token,
    ) -> Result<LambdaStep, ParseFault>
        requires { IsCounted self }
        ensures { LambdaMoves result
            (opened room (frames_of self) self.count token.now.start token.now.kind) }
    {
        match &token.kind {
            Kind::CloseParen => self.close_call(token.start),
            _ => self.read_operand(alloc, room, token),
        }
    }

    /// Reads a token behind an operand.
    fn read_behind(
        self,
        alloc: Global,
        room: u32,
        tree: Expr,
        token: &Token,
    ) -> Result<LambdaStep, ParseFault>
        requires { IsCounted self }
        ensures { LambdaMoves result
            (after room OPERATOR_LIMIT (frames_of self) (tree_of tree) self.count token.now.start
            token.now.kind) }
    {
        match &token.kind {
            Kind::OpenParen => self.open_call(alloc, room, tree, token.start),
            Kind::Operator(op) => {
                let held = self.reduce(alloc, level_of(*op), tree)?;
                held.join(*op, token.start)
            }
            Kind::CloseParen => {
                let held = self.reduce(alloc, 0, tree)?;
                held.close(alloc, token.start)
            }
            Kind::Comma => {
                let held = self.reduce(alloc, 0, tree)?;
                held.end_argument(alloc, token.start)
            }
            _ => {
                let held = self.reduce(alloc, 0, tree)?;
                held.end_lambda(token.start)
            }
        }
    }
}

impl HeldOperand {
    /// Ends the lambda, where nothing is open in it any more.
    #[tactic(auto, using(crate::proofs::Stacks::frames_push))]
    fn end_lambda(self, at: u32) -> Result<LambdaStep, ParseFault>
        requires { IsCounted self.stack }
        ensures { LambdaMoves result (leave (frames_of self.stack) (tree_of self.tree) at) }
    {
        let HeldOperand { mut stack, tree } = self;
        match stack.frames.pop() {
            None => Ok(LambdaStep::Ended(tree)),
            Some(_frame) => Err(ParseFault::Expected(Want::Close, at)),
        }
    }

    /// Makes it the left side of an operator.
    #[tactic(auto, using(crate::proofs::Stacks::frames_push))]
    fn join(self, op: Op, at: u32) -> Result<LambdaStep, ParseFault>
        requires { IsCounted self.stack }
        ensures { LambdaMoves result
            (joining OPERATOR_LIMIT op self.stack.count at (held_of self)) }
    {
        let HeldOperand { mut stack, tree } = self;
        if stack.count >= OPERATOR_LIMIT {
            return Err(ParseFault::Deep(at));
        }
        stack.frames.push(Frame::Left(op, tree, at))?;
        stack.count += 1;
        Ok(LambdaStep::On(OpenLambda::OperandNext(stack)))
    }

    /// Closes the innermost parenthesis; where none is open, the lambda has ended.
    #[tactic(auto, using(crate::proofs::Stacks::frames_push))]
    fn close(self, alloc: Global, at: u32) -> Result<LambdaStep, ParseFault>
        requires { IsCounted self.stack }
        ensures { LambdaMoves result
            (close_top (frames_of self.stack) (tree_of self.tree) self.stack.count at) }
    {
        let HeldOperand { mut stack, tree } = self;
        match stack.frames.pop() {
            None => Ok(LambdaStep::Ended(tree)),
            Some(Frame::Paren(place)) => {
                stack.open -= 1;
                let tree = Expr::Group(Box::new(alloc, tree)?, place);
                Ok(LambdaStep::On(OpenLambda::OperandRead(stack, tree)))
            }
            Some(Frame::Args(name, done, place)) => {
                stack.open -= 1;
                let args = Exprs::More(Box::new(alloc, tree)?, Box::new(alloc, done)?);
                let tree = Expr::Call(name, args.reversed(), place);
                Ok(LambdaStep::On(OpenLambda::OperandRead(stack, tree)))
            }
            _ => Err(ParseFault::Expected(Want::Close, at)),
        }
    }

    /// Ends an argument of the innermost call; where nothing is open, the lambda has ended.
    #[tactic(auto, using(crate::proofs::Stacks::frames_push))]
    fn end_argument(self, alloc: Global, at: u32) -> Result<LambdaStep, ParseFault>
        requires { IsCounted self.stack }
        ensures { LambdaMoves result
            (next_top (frames_of self.stack) (tree_of self.tree) self.stack.count at) }
    {
        let HeldOperand { mut stack, tree } = self;
        match stack.frames.pop() {
            None => Ok(LambdaStep::Ended(tree)),
            Some(Frame::Args(name, done, place)) => {
                let done = Exprs::More(Box::new(alloc, tree)?, Box::new(alloc, done)?);
                stack.frames.push(Frame::Args(name, done, place))?;
                Ok(LambdaStep::On(OpenLambda::OperandNext(stack)))
            }
            _ => Err(ParseFault::Expected(Want::Close, at)),
        }
    }
}

impl OpenLambda {
    /// Reads a token, with room for so many open parentheses and unary operators.
    pub(crate) fn step(
        self,
        alloc: Global,
        room: u32,
        token: &Token,
    ) -> Result<LambdaStep, ParseFault>
        requires { IsCountedLambda self }
        ensures { LambdaMoves result (step room OPERATOR_LIMIT (lambda_of self) token.now) }
    {
        match self {
            OpenLambda::OperandNext(stack) => stack.read_operand(alloc, room, token),
            OpenLambda::CallOpened(stack) => stack.read_first_argument(alloc, room, token),
            OpenLambda::OperandRead(stack, tree) => stack.read_behind(alloc, room, tree, token),
        }
    }

    /// The lambda, where the tokens end here.
    #[tactic(auto, using(crate::proofs::Stacks::frames_push))]
    pub(crate) fn finish(self, alloc: Global, end: u32) -> Result<Expr, ParseFault>
        requires { IsCountedLambda self }
        ensures { LambdaEnds result (finish end (lambda_of self)) }
    {
        let OpenLambda::OperandRead(stack, tree) = self else {
            return Err(ParseFault::Expected(Want::Operand, end));
        };
        let HeldOperand { mut stack, tree } = stack.reduce(alloc, 0, tree)?;
        match stack.frames.pop() {
            None => Ok(tree),
            Some(_frame) => Err(ParseFault::Expected(Want::Close, end)),
        }
    }
}
