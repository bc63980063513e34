//! The law of the texts.

ghost use Rattle.std.specs.Prelude.{◌≡◌, ℕ, Bool, List, Some};
ghost use Rattle.serde_json.specs.Read.{read};
ghost use Rattle.kap_base.specs.Maps.{KeyMap};
ghost use Rattle.kap_base.specs.declared.items.Level.{Level};
ghost use Rattle.store_records.specs.declared.task.StoredTask.{StoredTask};
ghost use Rattle.reply_bodies.specs.Texts.{task_text, tasks_text, topic_text, topics_text};
ghost use Rattle.reply_bodies.specs.Values.{task_value, tasks_value, topic_value, topics_value};

/// The law of the texts: what reads JSON finds in them the ids, scripts, names and levels as they were,
/// whatever characters they have.
#[tactic(auto, using(crate::proofs::ReadLaws::task_read, crate::proofs::ReadLaws::tasks_read, crate::proofs::ReadLaws::topics_read, crate::proofs::ReadLaws::topic_read))]
pub fn texts_are_read_back()
    ensures task { (id script : List ℕ) (enabled : Bool) →
        read (task_text id script enabled) ≡ Some (task_value id script enabled) }
    ensures tasks { (tasks : List StoredTask) → read (tasks_text tasks) ≡ Some (tasks_value tasks) }
    ensures topics { (levels : KeyMap (KeyMap Level)) →
        read (topics_text levels) ≡ Some (topics_value levels) }
    ensures topic { (name : List ℕ) (ids : KeyMap Level) →
        read (topic_text name ids) ≡ Some (topic_value name ids) }
{}
