//! The types of an expression, or the first fault in it.

ghost use Rattle.std.specs.Prelude.{◌≡◌, ◌≢◌, false, IfErr, IfOk, None, Option, Some};
ghost use Rattle.kap_base.specs.Tree.{Tree};
ghost use Rattle.lambda_types.specs.Builds.{AtMostOneMore};
ghost use Rattle.lambda_types.specs.Faults.{FailsBy, IsCounted, Refusal, first_fault, is_pattern};
ghost use Rattle.lambda_types.specs.FirstFault.{IsFirstFault, NoneBreaks, parts_of};
ghost use Rattle.lambda_types.specs.Typed.{HasSomeType};
ghost use Rattle.lambda_types.specs.declared.fault.TypeFault.{TypeFault};
ghost use Rattle.lambda_types.specs.declared.walk.Position.TheVariants.{Anywhere};

use crate::fault::TypeFault;
use crate::lambda::Lambda;
use crate::pattern_list::PatternList;
use crate::patterns::Patterns;
use crate::walk::{Position, walk};
use kap_base::{Duplicate, SharedExpr};
use std::alloc::Global;

/// The lambda of an expression (Kapacitor 1.6 TICKscript language reference: lambda expressions). There is
/// one exactly where the expression has some type and none of its patterns was refused in this call. Each
/// fault is the first that a walk finds which visits the parts of the expression from left to right before
/// the whole:
///
/// - `NewLine` at a string or a reference that holds a line feed;
/// - `TimeUse` at a `"time"` that isn't itself the argument of a function of the time;
/// - `RegexUse` at a pattern that doesn't itself stand right of `=~` or `!~`;
/// - `Pattern` at a pattern that was refused, only where the count of refusals of `pats` rose in this call,
///   and the text refused last is that pattern's;
/// - `NoFunction` at a call of no function, then `Arity` at one with more or fewer arguments than its
///   function takes;
/// - `Mismatch` at an operator or a call that has no type although its parts have, and at a duration or a
///   name that the script was to define.
pub fn infer<P: Patterns>(
    alloc: Global,
    expr: &SharedExpr,
    pats: &mut P,
) -> Result<Lambda, TypeFault>
    ensures same { IfOk result (λ lambda. lambda ≡ expr.now) }
    ensures typed { IfOk result (λ lambda. HasSomeType expr.now) }
    ensures kept { IfOk result (λ lambda. P.refusals pats.new ≡ P.refusals pats.old) }
    ensures fault { IfErr result (FailsBy (λ r. first_fault r expr.now) (P.refused pats.new)) }
    ensures untyped { IfErr result (λ f. f ≢ TypeFault.NoMemory → is_pattern f ≡ false
        → ¬ (HasSomeType expr.now)) }
    ensures refused { IfErr result (IsCounted (P.refusals pats.old) (P.refusals pats.new)) }
    ensures counted { AtMostOneMore (P.refusals pats.old) (P.refusals pats.new) }
{
    let mut patterns = Vec::new(alloc);
    let types = walk(alloc, expr.expr(), Position::Anywhere, pats, &mut patterns)?;
    let expr = expr.copy(alloc)?;
    Ok(Lambda {
        expr,
        types,
        patterns: PatternList { patterns },
    })
}

/// Where no pattern is refused, an expression has a type exactly where the walk finds no fault in it.
pub fn typed_without_fault()
    ensures typed { (tree : Tree) → first_fault None tree ≡ None → HasSomeType tree }
    ensures no_fault { (tree : Tree) → HasSomeType tree → first_fault None tree ≡ None }
{}

/// The fault of an expression is that of its first part, from left to right and parts before the whole, that
/// breaks a rule; and one where no part breaks one has a type.
pub fn first_fault_is_first()
    ensures first { (refused : Option Refusal) (tree : Tree) (f : TypeFault)
        → first_fault refused tree ≡ Some f → IsFirstFault refused tree f }
    ensures only { (refused : Option Refusal) (tree : Tree) (f : TypeFault)
        → IsFirstFault refused tree f → first_fault refused tree ≡ Some f }
    ensures typed { (tree : Tree) → NoneBreaks None (parts_of Anywhere tree) → HasSomeType tree }
{}
