//! Scripts as trees: statements, chains and values.

ghost use Rattle.std.specs.Prelude.{◌≡◌};
ghost use Rattle.tick_parser.specs.Trees.{NoJoints, NoVals, joints_onto, joints_tree, vals_onto, vals_tree};

use kap_base::{Expr, ItemList, Lit, Text};
use std::mem;

/// The statements of a script, in order.
pub type Tree = ItemList<Stmt>;

/// A statement (Kapacitor 1.6 TICKscript language reference: Statements). Each place is a byte offset in the
/// script.
#[derive(Drop)]
pub enum Stmt {
    /// A variable and what it stands for; the place is that of the word `var`.
    Var { name: Text, value: Val, at: u32 },
    /// A database and a retention policy that the task sees; the place is that of the word `dbrp`.
    Dbrp { db: Text, rp: Text, at: u32 },
    /// A chain of nodes.
    Chain(Chain),
}

/// A name and what follows it (Kapacitor 1.6 TICKscript language reference: Chaining).
#[cycle(script)]
#[derive(Drop)]
pub struct Chain {
    /// The name with which it begins.
    pub head: Text,
    /// The nodes and properties behind it, in order.
    pub links: Links,
    /// The place of the name with which it begins.
    pub at: u32,
}

/// A node or a property, with its arguments.
#[cycle(script)]
#[derive(Drop)]
pub struct Joint {
    /// It is a node, behind `|`; else a property, behind `.`.
    pub node: bool,
    /// The name of the node or property.
    pub name: Text,
    /// What stands between its parentheses, in order.
    pub args: Vals,
    /// The place of its name.
    pub at: u32,
}

/// What a variable or an argument is. The number is the place of its first byte.
#[cycle(script)]
#[derive(Drop)]
pub enum Val {
    /// A literal. A minus before a number or a duration is part of it.
    Lit(Lit, u32),
    /// The star, which stands for every dimension. No variable is a star.
    Star(u32),
    /// The expression behind `lambda:`; the place is that of the word.
    Lambda(Expr, u32),
    /// A chain.
    Chain(Chain),
}

/// A list of values, the first on top. It is walked, turned round and dropped by loops.
#[cycle(script)]
pub enum Vals {
    /// No value.
    End,
    /// A value, and those behind it.
    More(Box<Val>, Box<Vals>),
}

/// A list of nodes and properties, the first on top. It is walked, turned round and dropped by loops.
#[cycle(script)]
pub enum Links {
    /// No node and no property.
    End,
    /// A node or a property, and those behind it.
    More(Box<Joint>, Box<Links>),
}

impl Drop for Vals {
    #[cycle(script)]
    fn drop(mut self) {
        loop {
            match self {
                Vals::End => return,
                Vals::More(_first, rest) => self = Box::into_inner(rest),
            }
        }
    }
}

impl Drop for Links {
    #[cycle(script)]
    fn drop(mut self) {
        loop {
            match self {
                Links::End => return,
                Links::More(_first, rest) => self = Box::into_inner(rest),
            }
        }
    }
}

impl Vals {
    /// The list from its last element to its first. It takes no memory.
    pub fn reversed(mut self) -> Vals
        ensures { vals_tree result ≡ vals_onto (vals_tree self) NoVals }
    {
        let mut turned = Vals::End;
        while let Vals::More(first, mut rest) = self {
            self = mem::replace(&mut *rest, turned);
            turned = Vals::More(first, rest);
        }
        turned
    }
}

impl Links {
    /// The list from its last element to its first. It takes no memory.
    pub fn reversed(mut self) -> Links
        ensures { joints_tree result ≡ joints_onto (joints_tree self) NoJoints }
    {
        let mut turned = Links::End;
        while let Links::More(first, mut rest) = self {
            self = mem::replace(&mut *rest, turned);
            turned = Links::More(first, rest);
        }
        turned
    }
}
