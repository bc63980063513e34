//! The parser of scripts.

ghost use Rattle.std.specs.Prelude.{◌≡◌, ◌⊎◌, List, IfErr, IfOk};
ghost use Rattle.tick_lexer.specs.declared.token.Token.{Token};
ghost use Rattle.tick_parser.specs.Trees.{StmtTree, script_tree};
ghost use Rattle.tick_parser.specs.Script.{IsScriptOf, Reads};
ghost use Rattle.tick_parser.specs.Refusal.{IsRefused};
ghost use Rattle.tick_parser.specs.declared.fault.ParseFault.{ParseFault};
ghost use Rattle.tick_parser.specs.declared.fault.ParseFault.TheVariants.{NoMemory};

use crate::fault::ParseFault;
use crate::script::Tree;
use crate::state::State;
use std::alloc::Global;
use tick_lexer::{Token, Tokens};

/// The one script of the tokens, or the first place where no reading goes on (Kapacitor 1.6 TICKscript
/// language reference: Syntax). It has at most 4,096 statements, at most 64 parentheses and unary operators
/// are open at a token, and a lambda has at most 512 binary operators. It goes over the tokens once.
pub fn parse(alloc: Global, tokens: &Tokens) -> Result<Tree, ParseFault>
    ensures tree { IfOk result (λ tree. IsScriptOf tokens.now (script_tree tree)) }
    ensures fault { IfErr result (λ fault. (fault ≡ NoMemory) ⊎ IsRefused tokens.now fault) }
{
    read(alloc, tokens.as_slice())
}

/// `parse` over a slice.
fn read(alloc: Global, tokens: &[Token]) -> Result<Tree, ParseFault>
    ensures tree { IfOk result (λ tree. IsScriptOf tokens.now (script_tree tree)) }
    ensures fault { IfErr result (λ fault. (fault ≡ NoMemory) ⊎ IsRefused tokens.now fault) }
{
    let mut state = State::Between(Vec::new(alloc));
    let mut end = 0;
    for token in tokens {
        state = state.step(alloc, token)?;
        end = token.end;
    }
    state.finish(alloc, end)
}

/// Tokens are those of at most one script.
pub fn one_tree()
    ensures { (tokens : List Token) (a b : List StmtTree) →
        Reads tokens a → Reads tokens b → a ≡ b }
{}

/// Tokens of a script within the limits are not refused.
pub fn not_both()
    ensures { (tokens : List Token) (script : List StmtTree) (fault : ParseFault) →
        IsScriptOf tokens script → IsRefused tokens fault → ⊥ }
{}

/// Tokens are those of a script within the limits, or refused.
pub fn always_one()
    ensures { (tokens : List Token) →
        ((script : List StmtTree) × IsScriptOf tokens script)
        ⊎ ((fault : ParseFault) × IsRefused tokens fault) }
{}

/// Tokens are refused at one place, for one reason.
pub fn one_fault()
    ensures { (tokens : List Token) (a b : ParseFault) →
        IsRefused tokens a → IsRefused tokens b → a ≡ b }
{}
