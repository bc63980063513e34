//! The command `check`.

ghost use Rattle.std.specs.Prelude.{◌≡◌, ◌≢◌, ◌≤◌, true, None, Some, IfErr, IfOk, OnOk, length};
ghost use Rattle.kap_base.specs.Words.{HasRisen};
ghost use Rattle.recording_file.specs.Reading.{HasEnded};
ghost use Rattle.kap_base.specs.declared.limits.TheConstants.{SCRIPT_LIMIT};
ghost use Rattle.tick_compile.specs.Scripts.{Refuses};
ghost use Rattle.tick_compile.specs.Tasks.{is_refusal, refusal_in};
ghost use Rattle.kap_server.specs.Checking.{Checked, HasForm};
ghost use Rattle.kap_server.specs.Readying.{is_pattern_refused};

use crate::inputs::read_all;
use crate::status::Status;
use kap_base::{SCRIPT_LIMIT, Text};
use kap_io::{Failed, Sink, Source, write_all};
use lambda_types::Patterns;
use std::alloc::Global;
use tick_compile::{ScriptFault, compile_tree, read_tree};
use tick_print::print;

/// The canonical form of the script of a text, where it is a task's. The text is read once.
#[tactic(auto, using(tick_compile::proofs::ScriptLaws::tree_ok, tick_compile::proofs::ScriptLaws::tree_err))]
fn form_of<P: Patterns>(alloc: Global, bytes: &[u8], pats: &mut P) -> Result<Text, ScriptFault>
    requires { length bytes.now ≤ SCRIPT_LIMIT }
    ensures form { IfOk result (λ form. HasForm bytes.now form) }
    ensures fault { IfErr result (λ f. f ≢ ScriptFault.NoMemory
        → Refuses (refusal_in f (P.refused pats.new)) bytes.now f) }
    ensures rose { IfErr result (λ f. is_refusal f ≡ true
        → HasRisen (P.refusals pats.old) (P.refusals pats.new)) }
    ensures kept { OnOk result (P.refusals pats.new ≡ P.refusals pats.old) }
{
    let tree = read_tree(alloc, bytes)?;
    compile_tree(alloc, &tree, pats)?;
    let form = print(alloc, &tree)?;
    Ok(form)
}

/// Writes the canonical form of the script of a text.
fn write_form<K: Sink, P: Patterns>(alloc: Global, text: &[u8], out: &mut K, pats: &mut P) -> Status
    requires { length text.now ≤ SCRIPT_LIMIT }
    ensures checked { Checked (P.refused pats.new) result (Some text.now) None
        (K.written out.old) (K.written out.new) }
    ensures write_fault { result ≡ Status.WriteFault
        → HasRisen (K.faults out.old) (K.faults out.new) }
    ensures rose { is_pattern_refused result ≡ true
        → HasRisen (P.refusals pats.old) (P.refusals pats.new) }
{
    match form_of(alloc, text, pats) {
        Ok(form) => match write_all(out, form.bytes()) {
            Ok(()) => Status::Ok,
            Err(Failed) => Status::WriteFault,
        },
        Err(fault) => Status::from(fault),
    }
}

/// Checks the script that the input gives, and writes its canonical form.
pub(crate) fn check<S: Source, K: Sink, P: Patterns>(
    alloc: Global,
    input: &mut S,
    out: &mut K,
    pats: &mut P,
) -> Status
    ensures checked { Checked (P.refused pats.new) result (S.left input.old) (S.left input.new)
        (K.written out.old) (K.written out.new) }
    ensures read { result ≡ Status.Ok → HasEnded (S.left input.old) (S.left input.new) }
    ensures read_fault { result ≡ Status.ReadFault
        → HasRisen (S.faults input.old) (S.faults input.new) }
    ensures write_fault { result ≡ Status.WriteFault
        → HasRisen (K.faults out.old) (K.faults out.new) }
    ensures rose { is_pattern_refused result ≡ true
        → HasRisen (P.refusals pats.old) (P.refusals pats.new) }
{
    match read_all(alloc, SCRIPT_LIMIT, input) {
        Ok(text) => write_form(alloc, text.as_slice(), out, pats),
        Err(status) => status,
    }
}
