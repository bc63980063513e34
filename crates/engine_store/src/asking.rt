//! The scripts of a store are asked, in the order of the records that brought them.

ghost use Rattle.std.specs.Prelude.{◌≡◌, ◌≤◌, ℕ, IfErr, IfSome, IsTrue, List, OnOk, length, option_map};
ghost use Rattle.std.specs.List.{AllByRecursion as Each};
ghost use Rattle.kap_base.specs.declared.limits.TheConstants.{SCRIPT_LIMIT};
ghost use Rattle.lambda_types.specs.Builds.{AtMostOneMore};
ghost use Rattle.store_records.specs.Orders.{AreValidLives, AreValidTasks};
ghost use Rattle.engine_store.specs.Asking.{AreScripts, IsLastAsked, IsNotAbove, IsScript, IsWhyAmong, IsWhyAt, IsWhyFirst};

use engine_runs::{RunFault, fault_at};
use lambda_types::Patterns;
use std::alloc::Global;
use store_records::{Life, StoredTask};
use tick_compile::compile;

/// What the record that defines a task has left: the task, or a life of it.
pub(crate) trait Defined {
    ghost use Rattle.std.specs.Prelude.{◌≡◌, ℕ, List};

    /// The offset of that record's gate.
    ghost place: { Self → ℕ };

    /// The task's script.
    ghost text: { Self → List ℕ };

    /// The offset of that record's gate.
    fn place(&self) -> u64
        ensures { result ≡ place self.now };

    /// The task's script.
    fn text(&self) -> &[u8]
        ensures { result.now ≡ text self.now };
}

impl Defined for StoredTask {
    ghost place = { λ task. task.define_at };

    ghost text = { λ task. task.script };

    fn place(&self) -> u64 {
        self.define_at
    }

    fn text(&self) -> &[u8] {
        self.script.bytes()
    }
}

impl Defined for Life {
    ghost place = { λ life. life.define_at };

    ghost text = { λ life. life.script };

    fn place(&self) -> u64 {
        self.define_at
    }

    fn text(&self) -> &[u8] {
        self.script.bytes()
    }
}

/// The lesser of a place and another one, where the place isn't before this one.
fn lesser_of(place: u64, from: u64, other: Option<u64>) -> Option<u64>
    ensures place { from ≤ place → IsNotAbove result place }
    ensures other { (o : ℕ) → IsNotAbove other o → IsNotAbove result o }
    ensures low { IfSome other (λ o. from ≤ o) → IfSome result (λ o. from ≤ o) }
{
    if place < from {
        return other;
    }
    match other {
        Some(other) => Some(place.min(other)),
        None => Some(place),
    }
}

/// The least place from this one on, of these and of another one that is no lower.
fn least_from<T: Defined>(items: &[T], from: u64, other: Option<u64>) -> Option<u64>
    ensures items { Each (λ item. from ≤ T.place item → IsNotAbove result (T.place item)) items.now }
    ensures other { (o : ℕ) → IsNotAbove other o → IsNotAbove result o }
    ensures low { IfSome other (λ o. from ≤ o) → IfSome result (λ o. from ≤ o) }
{
    let mut least = other;
    let mut rest = items;
    'looking: while let Some((item, others)) = rest.split_first() {
        least = lesser_of(item.place(), from, least);
        rest = others;
    }
    least
}

/// Whether the text is the one that was asked last.
fn is_last(asked: Option<&[u8]>, text: &[u8]) -> bool
    ensures { IsTrue result → IsLastAsked (option_map (λ a. a.now) asked.entry) text.now }
{
    match asked {
        Some(asked) => asked == text,
        None => false,
    }
}

/// Whether a script, which the record at this place defined, is that of a task.
fn ask<P: Patterns>(alloc: Global, place: u64, text: &[u8], pats: &mut P) -> Result<(), RunFault>
    requires { length text.now ≤ SCRIPT_LIMIT }
    ensures ok { OnOk result (IsScript text.now) }
    ensures why { IfErr result
        (IsWhyAt (P.refusals pats.old) (P.refusals pats.new) (P.refused pats.new) place text.now) }
    ensures kept { OnOk result (P.refusals pats.new ≡ P.refusals pats.old) }
    ensures counted { AtMostOneMore (P.refusals pats.old) (P.refusals pats.new) }
{
    match compile(alloc, text, pats) {
        Ok(_task) => Ok(()),
        Err(fault) => Err(fault_at(place, &fault)),
    }
}

/// Asks those scripts of these that the record at a place defined: each text once, where equal ones stand one
/// behind the other.
fn ask_at<T: Defined, P: Patterns>(
    alloc: Global,
    items: &[T],
    place: u64,
    pats: &mut P,
) -> Result<(), RunFault>
    requires short { Each (λ item. length (T.text item) ≤ SCRIPT_LIMIT) items.now }
    ensures ok { OnOk result (Each (λ item. T.place item ≡ place → IsScript (T.text item)) items.now) }
    ensures why { IfErr result (IsWhyAmong (P.refusals pats.old) (P.refusals pats.new)
        (P.refused pats.new) T.place T.text items.now place) }
    ensures kept { OnOk result (P.refusals pats.new ≡ P.refusals pats.old) }
    ensures counted { AtMostOneMore (P.refusals pats.old) (P.refusals pats.new) }
{
    let mut asked = None;
    let mut rest = items;
    'asking: while let Some((item, others)) = rest.split_first() {
        if item.place() == place && !is_last(asked, item.text()) {
            if let Err(fault) = ask(alloc, place, item.text(), pats) {
                return Err(fault);
            }
            asked = Some(item.text());
        }
        rest = others;
    }
    Ok(())
}

/// Asks the scripts of tasks and of lives, in the order of the records that defined them: whether each is
/// that of a task, or which is the first that isn't.
pub(crate) fn ask_scripts<P: Patterns>(
    alloc: Global,
    tasks: &[StoredTask],
    lives: &[Life],
    pats: &mut P,
) -> Result<(), RunFault>
    requires tasks { AreValidTasks tasks.now }
    requires lives { AreValidLives lives.now }
    ensures ok { OnOk result (AreScripts tasks.now lives.now) }
    ensures why { IfErr result (IsWhyFirst (P.refusals pats.old) (P.refusals pats.new)
        (P.refused pats.new) tasks.now lives.now) }
    ensures kept { OnOk result (P.refusals pats.new ≡ P.refusals pats.old) }
    ensures counted { AtMostOneMore (P.refusals pats.old) (P.refusals pats.new) }
{
    let mut from = 0_u64;
    'asking: while let Some(place) = least_from(lives, from, least_from(tasks, from, None)) {
        if let Err(fault) = ask_at(alloc, tasks, place, pats) {
            return Err(fault);
        }
        if let Err(fault) = ask_at(alloc, lives, place, pats) {
            return Err(fault);
        }
        let Some(next) = place.checked_add(1) else {
            return Err(RunFault::NoMemory);
        };
        from = next;
    }
    Ok(())
}
