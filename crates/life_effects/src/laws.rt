//! Laws of what the lives of a store have done, and no code.

ghost use Rattle.std.specs.Prelude.{◌≡◌, ◌+◌, ◌<◌, ◌^◌, ℕ, [], ◌∷◌, ◌++◌, drop, true, IsTrue, List, Some, length, map, slice_get};
ghost use Rattle.std.specs.List.{AllByRecursion as Each, AllZip, remove};
ghost use Rattle.kap_base.specs.Points.{PointValue};
ghost use Rattle.kap_base.specs.declared.items.Effect.{Effect};
ghost use Rattle.kap_base.specs.Events.{EventValue};
ghost use Rattle.task_run.specs.Graphs.{Placed};
ghost use Rattle.task_run.specs.Lives.{effects_of};
ghost use Rattle.topic_core.specs.Topics.{Trans};
ghost use Rattle.topic_core.specs.declared.transition.Transition.{Transition};
ghost use Rattle.task_run.specs.Courses.{begun, end_of, grown, later_effects};
ghost use Rattle.store_records.specs.Held.{are_next, end_life, life_from, open_from};
ghost use Rattle.store_records.specs.Histories.{held};
ghost use Rattle.store_records.specs.declared.rec.Rec.{Rec};
ghost use Rattle.store_records.specs.declared.task.Life.{Life};
ghost use Rattle.store_records.specs.declared.task.StoredTask.{StoredTask};
ghost use Rattle.life_effects.specs.Effects.{Fares, LivesFit, courses_of, ending_from, open_courses, stored_effects};
ghost use Rattle.life_effects.specs.OpenAlone.{AreOpenAlone, of_open};
ghost use Rattle.life_effects.specs.Renumbered.{AreAlike, whats};
ghost use Rattle.life_effects.specs.Times.{times_fit};

use node_core::Node;

/// The effects of a store's lives go on: with more points by what the open lives do with them, and not where
/// a life begins or ends.
pub fn stores_go_on<N: Node>()
    ensures fit { (rs : List Rec) → LivesFit (length (held rs).points) (held rs).lives }
    ensures ends { (points : List PointValue) (lives : List Life) (graphs : List (List (Placed N.Spec)))
        → LivesFit (length points) lives
        → Each (λ c. end_of c ≡ length points) (open_courses lives graphs points) }
    ensures more { (points new : List PointValue) (lives : List Life)
        (graphs : List (List (Placed N.Spec))) (es : List Effect) → LivesFit (length points) lives
        → es ≡ later_effects N.answer (length points) (length new)
        (map (grown new) (open_courses lives graphs points))
        → stored_effects N.answer lives graphs (points ++ new)
        ≡ stored_effects N.answer lives graphs points ++ es }
    ensures goes { (points new : List PointValue) (lives : List Life)
        (graphs : List (List (Placed N.Spec))) → LivesFit (length points) lives
        → open_courses lives graphs (points ++ new)
        ≡ map (grown new) (open_courses lives graphs points) }
    ensures fare { (points new : List PointValue) (lives : List Life)
        (graphs : List (List (Placed N.Spec)))
        → Each (Fares (length points) (length new)) lives
        → stored_effects N.answer lives graphs (points ++ new)
        ≡ stored_effects N.answer lives graphs points ++ later_effects N.answer (length points)
        (length new) (courses_of lives graphs (points ++ new)) }
    ensures begin { (points : List PointValue) (lives : List Life) (task : StoredTask)
        (graphs : List (List (Placed N.Spec))) (nodes : List (Placed N.Spec))
        → length lives ≡ length graphs
        → stored_effects N.answer (lives ++ life_from (length points) task ∷ [])
        (graphs ++ nodes ∷ []) points ≡ stored_effects N.answer lives graphs points }
    ensures end { (points : List PointValue) (lives : List Life) (id : List ℕ)
        (graphs : List (List (Placed N.Spec)))
        → stored_effects N.answer (end_life id (length points) lives) graphs points
        ≡ stored_effects N.answer lives graphs points }
{}

/// The open lives of a store, as a net has them. One that begins comes behind the others, and has seen no
/// points. Where the life of a task ends, which stands by its number at a place among the open ones, just
/// this one is gone.
pub fn open_lives_come_and_go<N: Node>()
    ensures begun { (points : List PointValue) (lives : List Life) (task : StoredTask)
        (graphs : List (List (Placed N.Spec))) (nodes : List (Placed N.Spec))
        → length lives ≡ length graphs
        → open_courses (lives ++ life_from (length points) task ∷ []) (graphs ++ nodes ∷ []) points
        ≡ open_courses lives graphs points ++ begun (length points) nodes ∷ [] }
    ensures numbers_begun { (n : ℕ) (lives : List Life) (task : StoredTask)
        → open_from 1 (lives ++ life_from n task ∷ []) ≡ open_from 1 lives ++ (1 + length lives) ∷ [] }
    ensures ended { (points : List PointValue) (id : List ℕ) (number place : ℕ)
        (lives : List Life) (graphs : List (List (Placed N.Spec)))
        → length lives ≡ length graphs → ending_from id 1 lives ≡ Some number
        → slice_get (open_from 1 lives) place ≡ Some number
        → open_courses (end_life id (length points) lives) graphs points
        ≡ remove (open_courses lives graphs points) place }
    ensures numbers_ended { (n : ℕ) (id : List ℕ) (number place : ℕ) (lives : List Life)
        → ending_from id 1 lives ≡ Some number
        → slice_get (open_from 1 lives) place ≡ Some number
        → open_from 1 (end_life id n lives) ≡ remove (open_from 1 lives) place }
{}

/// The transitions of events go on with more events; and those behind some of them may be stored behind
/// these, where they are fewer than 2^64 and each time lies within the range of times.
pub fn transitions_go_on()
    ensures more { (es fs : List EventValue) → Trans (es ++ fs)
        ≡ Trans es ++ drop (length (Trans es)) (Trans (es ++ fs)) }
    ensures next { (es : List EventValue) (p q : List Transition) → Trans es ≡ p ++ q
        → length (Trans es) < 2 ^ 64 → times_fit es ≡ true → IsTrue (are_next p q) }
{}

/// Where the open lives of a store began before its first point, and no other life has seen a point, the lives
/// have done what the open ones do that run side by side on all points.
pub fn open_lives_are_all<N: Node>()
    ensures { (points : List PointValue) (lives : List Life) (graphs : List (List (Placed N.Spec)))
        → AreOpenAlone points lives → stored_effects N.answer lives graphs points
        ≡ effects_of N.answer (of_open lives graphs) points }
{}

/// What lives tell that run side by side is the same under any numbers: where their nodes say the same, stamped
/// by the number of one life or of another.
pub fn lives_tell_alike<N: Node>()
    ensures { (points : List PointValue) (some others : List (List (Placed N.Spec)))
        → AllZip (AreAlike N.answer) some others
        → whats (effects_of N.answer some points) ≡ whats (effects_of N.answer others points) }
{}
