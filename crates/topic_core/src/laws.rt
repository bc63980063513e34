//! What transitions keep of their events: laws, and no code.

ghost use Rattle.std.specs.Prelude.{◌≡◌, [], List, map};
ghost use Rattle.kap_base.specs.Events.{EventValue};
ghost use Rattle.topic_core.specs.Rows.{BackToFine, FirstIsFine, GreatestOfIds, GreatestOfNone, RepeatedLevel, SharedId, TwoIds, TwoTopics};
ghost use Rattle.topic_core.specs.Topics.{StandsFor, TopicsValue, Trans, event_of, no_topics, topics_after};

/// Transitions stand for their events: taken as events again they make the same transitions, and what is kept
/// of the one is what is kept of the other.
pub fn transition_laws()
    ensures again { (events : List EventValue) → Trans (map event_of (Trans events)) ≡ Trans events }
    ensures stand { (events : List EventValue) (kept : TopicsValue) → StandsFor events kept
        → StandsFor (map event_of (Trans events)) kept }
    ensures stood { (events : List EventValue) (kept : TopicsValue)
        → StandsFor (map event_of (Trans events)) kept → StandsFor events kept }
{}

/// What is kept of a list of events is one value: what `Topics::put` keeps of their transitions, one after
/// the other. Before any event it is that of no topics.
pub fn kept_laws()
    ensures one { (events : List EventValue) (kept : TopicsValue) → StandsFor events kept
        → kept ≡ topics_after (Trans events) }
    ensures stands { (events : List EventValue) → StandsFor events (topics_after (Trans events)) }
    ensures none { (kept : TopicsValue) → StandsFor [] kept → kept ≡ no_topics }
{}

/// Examples of the transitions of events, and of the level of a topic.
pub fn examples_of_topics()
    ensures first_is_fine { FirstIsFine }
    ensures repeated_level { RepeatedLevel }
    ensures back_to_fine { BackToFine }
    ensures two_ids { TwoIds }
    ensures two_topics { TwoTopics }
    ensures shared_id { SharedId }
    ensures greatest_of_ids { GreatestOfIds }
    ensures greatest_of_none { GreatestOfNone }
{}
