//! How much a script may have.

ghost use Rattle.std.specs.Prelude.{◌≡◌, ◌^◌};

/// How many parentheses and unary operators may be open at a token.
pub const DEPTH_LIMIT: u32 = 64;

/// How many binary operators a lambda may have.
pub const OPERATOR_LIMIT: u32 = 512;

/// How many statements a script may have.
pub const STATEMENT_LIMIT: usize = 4096;

/// The limits as numbers.
pub fn limits_are_numbers()
    ensures depth { DEPTH_LIMIT ≡ 64 }
    ensures operators { OPERATOR_LIMIT ≡ 512 }
    ensures statements { STATEMENT_LIMIT ≡ 2 ^ 12 }
{}
