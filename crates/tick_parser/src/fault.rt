//! Why tokens are no script.

ghost use Rattle.std.specs.Prelude.{◌≡◌};
ghost use Rattle.tick_parser.specs.declared.fault.ParseFault.TheVariants.{NoMemory as no_memory};

use kap_base::NoMemory;
use std::alloc::{AllocError, AllocFailed};

/// What the grammar needs where a token doesn't fit.
#[derive(Clone, Copy, Debug, PartialEq, Eq)]
pub enum Want {
    /// A statement.
    Statement,
    /// A name: of a variable behind `var`, of a node behind `|`, of a property behind `.`.
    Name,
    /// The sign `=`.
    Equal,
    /// The value of a variable, or an argument of a node or a property.
    Value,
    /// The sign `(` behind the name of a node or a property.
    Open,
    /// The sign `)`, or a comma where one may stand.
    Close,
    /// The retention policy of a `dbrp` statement, in double quotes.
    Ref,
    /// The dot of a `dbrp` statement.
    Dot,
    /// An operand of a lambda.
    Operand,
}

/// The first fault, and its place: that of the token which doesn't fit, or of the end of the last token where
/// the tokens end too early, and 0 where there are none.
#[derive(Clone, Copy, Debug, PartialEq, Eq)]
pub enum ParseFault {
    /// No script goes on with this token. What the grammar needs in its stead.
    Expected(Want, u32),
    /// Only a script goes on in which more than 64 parentheses and unary operators are open at this token, or
    /// a lambda has more than 512 binary operators.
    Deep(u32),
    /// Here the 4,097th statement begins.
    TooMany(u32),
    /// Memory ran out.
    NoMemory,
}

impl From<NoMemory> for ParseFault {
    ghost from_gives = { λ _ fault. fault ≡ no_memory };

    fn from(_: NoMemory) -> ParseFault {
        ParseFault::NoMemory
    }
}

impl From<AllocError> for ParseFault {
    ghost from_gives = { λ _ fault. fault ≡ no_memory };

    fn from(_: AllocError) -> ParseFault {
        ParseFault::NoMemory
    }
}

impl<T: Drop> From<AllocFailed<T>> for ParseFault {
    ghost from_gives = { λ _ fault. fault ≡ no_memory };

    fn from(_: AllocFailed<T>) -> ParseFault {
        ParseFault::NoMemory
    }
}
