//! Each text has one answer.

ghost use Rattle.std.specs.Prelude.{◌≡◌, ◌⊎◌, ◌≤◌, ℕ, List, Option, length};
ghost use Rattle.lambda_types.specs.Faults.{Refusal};
ghost use Rattle.lambda_types.specs.declared.fault.TypeFault.TheVariants.{Pattern};
ghost use Rattle.kap_base.specs.declared.limits.TheConstants.{SCRIPT_LIMIT};
ghost use Rattle.tick_parser.specs.Trees.{StmtTree};
ghost use Rattle.tick_compile.specs.Scripts.{Accepts, IsRefusedPattern, Parses, Refuses};
ghost use Rattle.tick_compile.specs.declared.script_fault.ScriptFault.{ScriptFault};
ghost use Rattle.tick_compile.specs.declared.script_fault.ScriptFault.TheVariants.{Lambda};
ghost use Rattle.tick_compile.specs.declared.tasks.Task.{Task};

/// The law of scripts. Whichever pattern is refused, if any, each text of at most 65,536 bytes is a script of
/// one task, or has one first fault, and not both. A text is at most one script's. A pattern is a fault only
/// where it is the refused one.
pub fn scripts_have_one_answer()
    ensures script { (text : List ℕ) (a b : List StmtTree) → Parses text a → Parses text b → a ≡ b }
    ensures task { (refused : Option Refusal) (text : List ℕ) (a b : Task) →
        Accepts refused text a → Accepts refused text b → a ≡ b }
    ensures fault { (refused : Option Refusal) (text : List ℕ) (a b : ScriptFault) →
        Refuses refused text a → Refuses refused text b → a ≡ b }
    ensures apart { (refused : Option Refusal) (text : List ℕ) (task : Task) (fault : ScriptFault) →
        Accepts refused text task → Refuses refused text fault → ⊥ }
    ensures pattern { (refused : Option Refusal) (text : List ℕ) (at : ℕ) →
        Refuses refused text (Lambda (Pattern at)) → IsRefusedPattern refused at }
    ensures some { (refused : Option Refusal) (text : List ℕ) → length text ≤ SCRIPT_LIMIT →
        ((task : Task) × Accepts refused text task)
        ⊎ ((fault : ScriptFault) × Refuses refused text fault) }
{}
