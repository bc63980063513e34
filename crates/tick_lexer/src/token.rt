//! Tokens, and why a text has none.

ghost use Rattle.std.specs.Prelude.{◌≡◌};
ghost use Rattle.tick_lexer.specs.declared.token.LexFault.TheVariants.{NoMemory as no_memory};

use kap_base::{ItemList, Lit, NoMemory, Op, Text};

/// What a token is, and what it says (Kapacitor 1.6 TICKscript language reference: Syntax).
#[derive(Drop)]
pub enum Kind {
    /// A name that is no word of its own.
    Ident(Text),
    /// The word `var`.
    Var,
    /// The word `lambda` with its colon.
    Lambda,
    /// An integer, a duration, a string, `TRUE`, `FALSE` or a pattern.
    Literal(Lit),
    /// A name in double quotes.
    Reference(Text),
    /// A binary operator, `AND` and `OR` among them. `-` is also the unary operator, and `*` also the star.
    Operator(Op),
    /// The sign `!`.
    Not,
    /// The sign `=`.
    Assign,
    /// The sign `(`.
    OpenParen,
    /// The sign `)`.
    CloseParen,
    /// The sign `,`.
    Comma,
    /// The sign `.`.
    Dot,
    /// The sign `|`.
    Pipe,
}

/// A token and its place: that of its first byte, and that behind its last one.
#[derive(Drop)]
pub struct Token {
    pub kind: Kind,
    pub start: u32,
    pub end: u32,
}

/// The tokens of a text, in order.
pub type Tokens = ItemList<Token>;

/// Why a text has no tokens, at the first byte of what is no token.
#[derive(Clone, Copy, Debug, PartialEq, Eq, Drop)]
pub enum LexFault {
    /// A byte with which no token begins.
    BadChar(u32),
    /// A string or a reference without its end.
    OpenString(u32),
    /// A pattern without its end.
    OpenRegex(u32),
    /// Digits or a duration with another letter, digit or `_` directly behind.
    BadNumber(u32),
    /// Digits with a dot directly behind.
    FloatLiteral(u32),
    /// A zero before further digits.
    OctalLiteral(u32),
    /// An integer above 2^63 - 1.
    WideInt(u32),
    /// A duration above 2 * 10^17 ns.
    WideDuration(u32),
    /// The sign `@`, with which Kapacitor's user-defined functions begin.
    UserFunction(u32),
    /// Memory ran out.
    NoMemory,
}

impl From<NoMemory> for LexFault {
    ghost from_gives = { λ _ fault. fault ≡ no_memory };

    fn from(_: NoMemory) -> LexFault {
        LexFault::NoMemory
    }
}
