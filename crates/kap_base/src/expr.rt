//! Expressions of lambdas, and lists of them.

ghost use Rattle.std.specs.Prelude.{◌≡◌, IfOk};
ghost use Rattle.kap_base.specs.Tree.{NoTrees, reversed_onto, tree_of, trees_of};

use crate::duplicate::Duplicate;
use crate::memory::NoMemory;
use crate::shared::SharedText;
use crate::text::Text;
use std::alloc::Global;
use std::mem;

/// A binary operator of a lambda.
#[derive(Clone, Copy, Debug, PartialEq, Eq, Drop)]
pub enum Op {
    /// `OR`
    Or,
    /// `AND`
    And,
    /// `==`
    Eq,
    /// `!=`
    Ne,
    /// `=~`: a text has a match of a pattern.
    Match,
    /// `!~`: a text has no match of a pattern.
    NoMatch,
    /// `<`
    Lt,
    /// `<=`
    Le,
    /// `>`
    Gt,
    /// `>=`
    Ge,
    /// `+`
    Add,
    /// `-`
    Sub,
    /// `*`
    Mul,
    /// `/`
    Div,
    /// `%`
    Rem,
}

/// A literal of a lambda, or of a script outside lambdas.
#[derive(Debug, PartialEq, Eq, Drop)]
pub enum Lit {
    /// A whole number.
    Int(i64),
    /// A duration, in nanoseconds.
    Dur(i64),
    /// A string, without its quotes.
    Str(SharedText),
    /// `TRUE` or `FALSE`.
    Bool(bool),
    /// A pattern, without its slashes.
    Regex(SharedText),
}

/// An expression. The number last in each variant is a place, a byte offset in the script: that of the
/// operator in `Bin`, and that of the first byte in the others.
#[cycle(expr)]
#[derive(Debug, PartialEq, Eq, Drop)]
pub enum Expr {
    /// A literal.
    Lit(Lit, u32),
    /// A field or a tag, by its name.
    Ref(Text, u32),
    /// A name that the script has defined.
    Name(Text, u32),
    /// A function by its name, and its arguments.
    Call(Text, Exprs, u32),
    /// An expression in parentheses.
    Group(Box<Expr>, u32),
    /// `-` before an operand.
    Neg(Box<Expr>, u32),
    /// `!` before an operand.
    Not(Box<Expr>, u32),
    /// An operator between its left side and its right side.
    Bin(Op, Box<Expr>, Box<Expr>, u32),
}

/// A list of expressions, the first on top. It is walked, copied, turned round and dropped by loops, so its
/// length has no bound; how deeply an expression holds others is bounded by the parser's limits, and goes by
/// recursion.
#[cycle(expr)]
#[derive(Debug, PartialEq, Eq)]
pub enum Exprs {
    /// No expression.
    End,
    /// An expression, and those behind it.
    More(Box<Expr>, Box<Exprs>),
}

impl Drop for Exprs {
    #[cycle(expr)]
    fn drop(mut self) {
        loop {
            match self {
                Exprs::End => return,
                Exprs::More(_first, rest) => self = Box::into_inner(rest),
            }
        }
    }
}

impl Duplicate for Lit {
    fn copy(&self, alloc: Global) -> Result<Lit, NoMemory> {
        match self {
            Lit::Int(number) => Ok(Lit::Int(*number)),
            Lit::Dur(span) => Ok(Lit::Dur(*span)),
            Lit::Str(text) => Ok(Lit::Str(text.copy(alloc)?)),
            Lit::Bool(truth) => Ok(Lit::Bool(*truth)),
            Lit::Regex(pattern) => Ok(Lit::Regex(pattern.copy(alloc)?)),
        }
    }
}

impl Expr {
    /// An expression of the same tree.
    #[cycle(copy)]
    pub fn copy(&self, alloc: Global) -> Result<Expr, NoMemory>
        ensures { IfOk result (λ copy. tree_of copy ≡ tree_of self.now) }
    {
        match self {
            Expr::Lit(lit, at) => Ok(Expr::Lit(lit.copy(alloc)?, *at)),
            Expr::Ref(name, at) => Ok(Expr::Ref(name.copy(alloc)?, *at)),
            Expr::Name(name, at) => Ok(Expr::Name(name.copy(alloc)?, *at)),
            Expr::Call(name, args, at) => Ok(Expr::Call(name.copy(alloc)?, args.copy(alloc)?, *at)),
            Expr::Group(inner, at) => {
                let inner = inner.copy(alloc)?;
                Ok(Expr::Group(Box::new(alloc, inner)?, *at))
            }
            Expr::Neg(operand, at) => {
                let operand = operand.copy(alloc)?;
                Ok(Expr::Neg(Box::new(alloc, operand)?, *at))
            }
            Expr::Not(operand, at) => {
                let operand = operand.copy(alloc)?;
                Ok(Expr::Not(Box::new(alloc, operand)?, *at))
            }
            Expr::Bin(op, left, right, at) => {
                let left = left.copy(alloc)?;
                let right = right.copy(alloc)?;
                Ok(Expr::Bin(*op, Box::new(alloc, left)?, Box::new(alloc, right)?, *at))
            }
        }
    }
}

impl Exprs {
    /// A list of the same trees.
    #[cycle(copy)]
    pub fn copy(&self, alloc: Global) -> Result<Exprs, NoMemory>
        ensures { IfOk result (λ copy. trees_of copy ≡ trees_of self.now) }
    {
        let mut turned = Exprs::End;
        let mut rest = self;
        while let Exprs::More(first, more) = rest {
            let copy = first.copy(alloc)?;
            turned = Exprs::More(Box::new(alloc, copy)?, Box::new(alloc, turned)?);
            rest = more;
        }
        Ok(turned.reversed())
    }

    /// The list from its last element to its first. It takes no memory.
    pub fn reversed(mut self) -> Exprs
        ensures { trees_of result ≡ reversed_onto (trees_of self) NoTrees }
    {
        let mut turned = Exprs::End;
        while let Exprs::More(first, mut rest) = self {
            self = mem::replace(&mut *rest, turned);
            turned = Exprs::More(first, rest);
        }
        turned
    }
}
