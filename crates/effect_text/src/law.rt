//! What holds of texts of effects: laws, and no code.

ghost use Rattle.std.specs.Prelude.{◌≡◌, ◌++◌, List};
ghost use Rattle.std.specs.List.{AllByRecursion as Each};
ghost use Rattle.kap_base.specs.declared.items.Effect.{Effect};
ghost use Rattle.kap_base.specs.Events.{EventValue};
ghost use Rattle.effect_text.specs.Lines.{events_of, task_of, text_behind};
ghost use Rattle.effect_text.specs.declared.names.TaskNames.{TaskNames};

/// The text of effects and of more is that of the first, and that of the others behind the events of the
/// first.
#[tactic(auto, using(crate::proofs::TextLaws::text_more))]
pub fn text_goes_on()
    ensures { (tasks : List TaskNames) (events : List EventValue) (xs ys : List Effect)
        → text_behind tasks events (xs ++ ys)
        ≡ text_behind tasks events xs ++ text_behind tasks (events ++ events_of xs) ys }
{}

/// The text of effects is the same by any names that are the same for their lives. So of a life that has
/// ended, and whose effects were told, no names need be kept but its place.
#[tactic(auto, using(crate::proofs::TextLaws::text_by_names))]
pub fn text_has_names_by_life()
    ensures { (some others : List TaskNames) (events : List EventValue) (effects : List Effect)
        → Each (λ e. task_of others e.life ≡ task_of some e.life) effects
        → text_behind others events effects ≡ text_behind some events effects }
{}
