//! What is printed is read again.

ghost use Rattle.std.specs.Prelude.{◌≡◌, ◌≤◌, ◌↔◌, IfOk, IfSome, IsSome, length, List};
ghost use Rattle.tick_lexer.specs.declared.token.Token.{Token};
ghost use Rattle.tick_lexer.specs.Script.{HasTokens};
ghost use Rattle.tick_parser.specs.Script.{IsScriptOf, Reads};
ghost use Rattle.tick_parser.specs.Trees.{StmtTree, script_tree};
ghost use Rattle.tick_print.specs.Law.{IsTextOf, WasRead};
ghost use Rattle.tick_print.specs.Places.{bare_script};
ghost use Rattle.tick_print.specs.Print.{script_text};

use crate::script::print;
use kap_base::{NoMemory, SCRIPT_LIMIT};
use std::alloc::Global;
use tick_lexer::{LexFault, Tokens, lex, text_reads_in_one_way};
use tick_parser::{ParseFault, Tree, not_both, one_tree, parse};

/// The print of a script that was read is read as that script, places aside, whatever its length. It does
/// nothing: its contract is that law.
pub fn print_is_read_again()
    ensures { (script : List StmtTree) → WasRead script → IsTextOf script (script_text script) }
{}

/// The tokens of a text that has some.
fn tokens_of(alloc: Global, text: &str) -> Result<Tokens, NoMemory>
    requires short { length text.now ≤ SCRIPT_LIMIT }
    requires has { (tokens : List Token) × HasTokens text.now tokens }
    ensures { IfOk result (λ tokens. HasTokens text.now tokens) }
{
    text_reads_in_one_way();
    let fault = match lex(alloc, text) {
        Ok(tokens) => return Ok(tokens),
        Err(fault) => fault,
    };
    if fault != LexFault::NoMemory {
        unreachable!()
    }
    Err(NoMemory)
}

/// The script of tokens that have one within the parser's limits.
fn script_of(alloc: Global, tokens: &Tokens) -> Result<Tree, NoMemory>
    requires { (script : List StmtTree) × IsScriptOf tokens.now script }
    ensures { IfOk result (λ tree. Reads tokens.now (script_tree tree)) }
{
    not_both();
    match parse(alloc, tokens) {
        Ok(tree) => Ok(tree),
        Err(ParseFault::NoMemory) => Err(NoMemory),
        Err(_) => unreachable!(),
    }
}

/// A script that was read, printed, and read again by `lex` and `parse`: it is the same, places aside. `None`
/// comes where its print has more than the 65,536 bytes that `lex` takes. `NoMemory` comes where an
/// allocation fails.
pub fn reread(alloc: Global, tree: &Tree) -> Result<Option<Tree>, NoMemory>
    requires { WasRead (script_tree tree.now) }
    ensures same { IfOk result (λ again. IfSome again
        (λ again. bare_script (script_tree again) ≡ bare_script (script_tree tree.now))) }
    ensures some { IfOk result (λ again. IsSome again ↔
        (length (script_text (script_tree tree.now)) ≤ SCRIPT_LIMIT)) }
{
    text_reads_in_one_way();
    one_tree();
    print_is_read_again();
    let text = print(alloc, tree)?;
    if text.as_str().len() > SCRIPT_LIMIT {
        return Ok(None);
    }
    let tokens = tokens_of(alloc, text.as_str())?;
    Ok(Some(script_of(alloc, &tokens)?))
}
