//! The lexer: one pass over a text.

ghost use Rattle.std.specs.Prelude.{◌≡◌, ◌≤◌, ◌⊎◌, drop, false, IfErr, IfOk, length, List, ℕ};
ghost use Rattle.tick_lexer.specs.Runs.{begins_comment, skipped};
ghost use Rattle.tick_lexer.specs.Script.{AreInPlace, HasFirstFault, HasTokens};
ghost use Rattle.tick_lexer.specs.Spelling.{takes_pattern};
ghost use Rattle.tick_lexer.specs.declared.token.LexFault.{LexFault};
ghost use Rattle.tick_lexer.specs.declared.token.LexFault.TheVariants.{NoMemory};
ghost use Rattle.tick_lexer.specs.declared.token.Token.{Token};

use crate::bytes::is_white;
use crate::front::next_token;
use crate::token::{Kind, LexFault, Token, Tokens};
use kap_base::{Op, SCRIPT_LIMIT};
use std::alloc::Global;

fn begins_comment(text: &[u8]) -> bool
    ensures { result ≡ begins_comment text.now }
{
    matches!(text, [b'/', b'/', ..])
}

/// How many bytes of white space and comments stand at the front.
fn gap_length(text: &[u8]) -> usize
    ensures within { result ≤ length text.now }
    ensures gap { drop result text.now ≡ skipped text.now false }
{
    let mut comment = false;
    'gap: for (at, byte) in text.iter().enumerate() {
        if comment {
            comment = *byte != b'\n';
        } else if !is_white(*byte) {
            if !begins_comment(&text[at..]) {
                return at;
            }
            comment = true;
        }
    }
    text.len()
}

/// Whether a pattern may follow a token of this kind.
fn takes_pattern(kind: &Kind) -> bool
    ensures { result ≡ takes_pattern kind.now }
{
    matches!(
        kind,
        Kind::Operator(Op::Match | Op::NoMatch) | Kind::Assign | Kind::OpenParen | Kind::Comma
    )
}

/// The tokens of a script, in one pass, with their places as offsets in its bytes; else the first fault, at
/// the first byte of what is no token. White space and comments, from `//` to the end of the line, may stand
/// before, between and behind tokens, and each token is the longest one. `NoMemory` comes where an allocation
/// fails. Kapacitor 1.6 TICKscript language reference: Syntax.
pub fn lex(alloc: Global, text: &str) -> Result<Tokens, LexFault>
    requires { length text.now ≤ SCRIPT_LIMIT }
    ensures tokens { IfOk result (λ tokens. HasTokens text.now tokens) }
    ensures places { IfOk result (λ tokens. AreInPlace text.now 0 tokens) }
    ensures fault { IfErr result (λ fault. (fault ≡ NoMemory) ⊎ HasFirstFault text.now fault) }
{
    let mut tokens = Tokens::new(alloc);
    let mut pattern = false;
    let mut at = 0;
    'tokens: loop {
        let start = at + gap_length(text.as_bytes().split_at(at).1);
        if start == text.len() {
            return Ok(tokens);
        }
        let front = next_token(alloc, pattern, text, start)?;
        pattern = takes_pattern(&front.kind);
        at = start + front.bytes;
        tokens.push(Token {
            kind: front.kind,
            start: start as u32,
            end: at as u32,
        })?;
    }
}

/// A text has one list of tokens or one first fault, and not both. It does nothing: its contract is that law.
pub fn text_reads_in_one_way()
    ensures tokens { (text : List ℕ) (a b : List Token) →
        HasTokens text a → HasTokens text b → a ≡ b }
    ensures fault { (text : List ℕ) (a b : LexFault) →
        HasFirstFault text a → HasFirstFault text b → a ≡ b }
    ensures not_both { (text : List ℕ) (tokens : List Token) (fault : LexFault) →
        HasTokens text tokens → HasFirstFault text fault → ⊥ }
    ensures some { (text : List ℕ) →
        ((tokens : List Token) × HasTokens text tokens)
        ⊎ ((fault : LexFault) × HasFirstFault text fault) }
{}
