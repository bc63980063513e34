//! Texts, compiled to tasks.

ghost use Rattle.std.specs.Prelude.{◌≡◌, ◌≢◌, ◌≤◌, true, false, length, IfErr, IfOk, None, Ok, Err};
ghost use Rattle.kap_base.specs.Words.{HasRisen};
ghost use Rattle.lambda_types.specs.Builds.{AtMostOneMore};
ghost use Rattle.kap_base.specs.declared.limits.TheConstants.{SCRIPT_LIMIT};
ghost use Rattle.tick_parser.specs.Trees.{script_tree};
ghost use Rattle.tick_compile.specs.Scripts.{Accepts, IsMisread, Parses, Refuses, task_of};
ghost use Rattle.tick_compile.specs.Tasks.{is_refusal, refusal_in};

use crate::script_fault::ScriptFault;
use crate::tasks::{Task, compile_bound};
use kap_base::{bytes_break_in_one_place, utf8_text};
use lambda_types::Patterns;
use std::alloc::Global;
use tick_lexer::lex;
use tick_parser::{Tree, parse};
use tick_vars::{bind, bound_as_written};

/// The tree of a text's tokens.
fn tree_of(alloc: Global, text: &str) -> Result<Tree, ScriptFault>
    requires { length text.now ≤ SCRIPT_LIMIT }
    ensures tree { IfOk result (λ tree. Parses text.now (script_tree tree)) }
    ensures fault { IfErr result (λ f. f ≢ ScriptFault.NoMemory → IsMisread text.now f) }
    ensures plain { IfErr result (λ f. is_refusal f ≡ false) }
{
    let tokens = lex(alloc, text)?;
    let tree = parse(alloc, &tokens)?;
    Ok(tree)
}

/// The tree of a script's text (Kapacitor 1.6 TICKscript language reference: Syntax), or the first fault of
/// its bytes, its tokens or its grammar. It takes texts of at most 65,536 bytes. `NoMemory` comes where an
/// allocation fails.
pub fn read_tree(alloc: Global, text: &[u8]) -> Result<Tree, ScriptFault>
    requires { length text.now ≤ SCRIPT_LIMIT }
    ensures tree { IfOk result (λ tree. Parses text.now (script_tree tree)) }
    ensures fault { IfErr result (λ f. f ≢ ScriptFault.NoMemory → IsMisread text.now f) }
    ensures plain { IfErr result (λ f. is_refusal f ≡ false) }
{
    bytes_break_in_one_place();
    match utf8_text(text) {
        Ok(text) => tree_of(alloc, text),
        Err(at) => Err(ScriptFault::NotUtf8(at as u32)),
    }
}

/// The task of a script of which `read_tree` has read the tree, or its first fault behind that: of its names,
/// and then as `ScriptFault` tells. `Lambda` with `Pattern` comes only where the count of refusals of `pats`
/// rose in this call, at the place of the pattern whose text was refused last; a task is given only where no
/// pattern was refused. `NoMemory` comes where an allocation fails.
pub fn compile_tree<P: Patterns>(
    alloc: Global,
    tree: &Tree,
    pats: &mut P,
) -> Result<Task, ScriptFault>
    ensures task { IfOk result (λ task. task_of None (script_tree tree.now) ≡ Ok task) }
    ensures fault { IfErr result (λ f. f ≢ ScriptFault.NoMemory →
        task_of (refusal_in f (P.refused pats.new)) (script_tree tree.now) ≡ Err f) }
    ensures kept { IfOk result (λ task. P.refusals pats.new ≡ P.refusals pats.old) }
    ensures rose { IfErr result (λ f. is_refusal f ≡ true →
        HasRisen (P.refusals pats.old) (P.refusals pats.new)) }
    ensures counted { AtMostOneMore (P.refusals pats.old) (P.refusals pats.new) }
{
    bound_as_written();
    let bound = bind(alloc, tree)?;
    compile_bound(alloc, bound, pats)
}

/// The task of a script's text (Kapacitor 1.6 TICKscript language and node reference), or its first fault, in
/// the order that `ScriptFault` tells. It takes texts of at most 65,536 bytes. `Lambda` with `Pattern` comes
/// only where the count of refusals of `pats` rose in this call, at the place of the pattern whose text was
/// refused last; a task is given only where no pattern was refused. `NoMemory` comes where an allocation
/// fails.
#[tactic(auto, using(crate::proofs::ScriptLaws::tree_ok, crate::proofs::ScriptLaws::tree_err))]
pub fn compile<P: Patterns>(alloc: Global, text: &[u8], pats: &mut P) -> Result<Task, ScriptFault>
    requires { length text.now ≤ SCRIPT_LIMIT }
    ensures task { IfOk result (λ task. Accepts None text.now task) }
    ensures fault { IfErr result (λ f. f ≢ ScriptFault.NoMemory →
        Refuses (refusal_in f (P.refused pats.new)) text.now f) }
    ensures kept { IfOk result (λ task. P.refusals pats.new ≡ P.refusals pats.old) }
    ensures rose { IfErr result (λ f. is_refusal f ≡ true →
        HasRisen (P.refusals pats.old) (P.refusals pats.new)) }
    ensures counted { AtMostOneMore (P.refusals pats.old) (P.refusals pats.new) }
{
    let tree = read_tree(alloc, text)?;
    compile_tree(alloc, &tree, pats)
}
