//! What the numbers of evaluations of an `alert` are, and how texts are cut: laws, and no code.

ghost use Rattle.std.specs.Prelude.{◌≡◌, ℕ, false, List, count_by};
ghost use Rattle.msg_template.specs.Filling.{IsCutTo};
ghost use Rattle.msg_template.specs.declared.template.TheConstants.{TEMPLATE_LIMIT};
ghost use Rattle.node_core.specs.Groups.{Came};
ghost use Rattle.alert_node.specs.declared.alert.Alert.{Alert};
ghost use Rattle.alert_node.specs.declared.watch.Ask.{Ask};
ghost use Rattle.alert_node.specs.Events.{cut, is_fine};
ghost use Rattle.alert_node.specs.Asking.{level_asked};
ghost use Rattle.alert_node.specs.Watches.{count_of, evaluations, same_ask, watch_in};
ghost use Rattle.alert_node.specs.Rows.{AboveFirst, BehindAReset, ChangesOnly, EachAboveOk, HeldByAReset, HighestFirst, NoRecoveries, ResetDecides};

/// The number of an expression or a reset of a level above OK is how often it was evaluated at the group's
/// points.
pub fn counts_are_evaluations()
    ensures { (alert : Alert) (ask : Ask) (points : List Came) → is_fine (level_asked ask) ≡ false
        → count_of (watch_in alert points) ask
        ≡ count_by (same_ask ask) (evaluations alert points) }
{}

/// A text is cut to its longest front of whole characters within the limit, and to no other text.
pub fn texts_are_cut()
    ensures longest { (whole : List ℕ) → IsCutTo TEMPLATE_LIMIT whole (cut whole) }
    ensures only { (whole text : List ℕ) → IsCutTo TEMPLATE_LIMIT whole text → text ≡ cut whole }
{}

/// Examples of levels, of what is evaluated for them, and of events.
pub fn examples_of_alerts()
    ensures held_by_a_reset { HeldByAReset }
    ensures highest_first { HighestFirst }
    ensures reset_decides { ResetDecides }
    ensures behind_a_reset { BehindAReset }
    ensures above_first { AboveFirst }
    ensures each_above_ok { EachAboveOk }
    ensures changes_only { ChangesOnly }
    ensures no_recoveries { NoRecoveries }
{}
