//! What is open while a lambda is read.

ghost use Rattle.std.specs.Prelude.{◌≡◌, IfOk};
ghost use Rattle.kap_base.specs.Tree.{tree_of};
ghost use Rattle.tick_parser.specs.Grammar.{level};
ghost use Rattle.tick_parser.specs.Lambdas.{reduce};
ghost use Rattle.tick_parser.specs.Stack.{frames_of, held_of, IsCounted};

use kap_base::{Expr, Exprs, NoMemory, Op, Text};
use std::alloc::Global;

/// How tightly an operator binds.
pub(crate) fn level_of(op: Op) -> u8
    ensures { result ≡ level op }
{
    match op {
        Op::Or => 0,
        Op::And => 1,
        Op::Eq | Op::Ne | Op::Match | Op::NoMatch => 2,
        Op::Lt | Op::Le | Op::Gt | Op::Ge => 3,
        Op::Add | Op::Sub => 4,
        Op::Mul | Op::Div | Op::Rem => 5,
    }
}

/// A construct whose end is to come.
#[derive(Drop)]
pub(crate) enum Frame {
    /// `-` before an operand.
    Minus(u32),
    /// `!` before an operand.
    Negation(u32),
    /// An operator whose left side was read.
    Left(Op, Expr, u32),
    /// A parenthesis.
    Paren(u32),
    /// A call, with its arguments from the last to the first.
    Args(Text, Exprs, u32),
}

/// What is open, the innermost last.
#[derive(Drop)]
pub(crate) struct Stack {
    /// The constructs that are open.
    pub frames: Vec<Frame>,
    /// How many parentheses and unary operators are open.
    pub open: u32,
    /// How many binary operators were read.
    pub count: u32,
}

/// What is open, and the operand that was read.
#[derive(Drop)]
pub(crate) struct HeldOperand {
    pub stack: Stack,
    pub tree: Expr,
}

impl Stack {
    /// Closes unary operators, and binary ones that bind as tightly as this level.
    #[tactic(auto, using(crate::proofs::Stacks::frames_push))]
    pub(crate) fn reduce(
        mut self,
        alloc: Global,
        least: u8,
        tree: Expr,
    ) -> Result<HeldOperand, NoMemory>
        requires { IsCounted self }
        ensures held { IfOk result (λ held. held_of held ≡ reduce least (frames_of self)
            (tree_of tree)) }
        ensures counted { IfOk result (λ held. IsCounted held.stack) }
        ensures count { IfOk result (λ held. held.stack.count ≡ self.count) }
    {
        let mut tree = tree;
        while let Some(frame) = self.frames.pop() {
            match frame {
                Frame::Minus(at) => {
                    self.open -= 1;
                    tree = Expr::Neg(Box::new(alloc, tree)?, at);
                }
                Frame::Negation(at) => {
                    self.open -= 1;
                    tree = Expr::Not(Box::new(alloc, tree)?, at);
                }
                Frame::Left(op, left, at) if level_of(op) >= least => {
                    tree = Expr::Bin(op, Box::new(alloc, left)?, Box::new(alloc, tree)?, at);
                }
                other => {
                    self.frames.push(other)?;
                    return Ok(HeldOperand { stack: self, tree });
                }
            }
        }
        Ok(HeldOperand { stack: self, tree })
    }
}
