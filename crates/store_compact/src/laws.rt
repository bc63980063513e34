//! That what stays stands for the same: a law, and no code.

ghost use Rattle.std.specs.Prelude.{◌≡◌, ◌++◌, ◌∷◌, [], false, true, ℕ, List};
ghost use Rattle.store_records.specs.Histories.{Follow, held};
ghost use Rattle.store_records.specs.declared.rec.Rec.{Rec};
ghost use Rattle.store_compact.specs.Same.{HasLastSnap, HoldSame, last_snap};
ghost use Rattle.store_compact.specs.Staying.{staying};

/// Of records of a store those that stay may follow one another, and a store with these holds the same: its
/// tasks, lives, points, transitions and last snapshot. The last snapshot's record stays, with its states, and
/// before it the store holds the same lives, points and transitions.
pub fn staying_laws()
    ensures follow { (rs : List Rec) → Follow rs → Follow (staying rs) }
    ensures same { (rs : List Rec) → Follow rs → HoldSame (held rs) (held (staying rs)) }
    ensures last { (rs : List Rec) → Follow rs → last_snap (staying rs) ≡ last_snap rs }
    ensures snap { (rs before behind : List Rec) (points trans : ℕ) (states : List ℕ) → Follow rs
        → rs ≡ before ++ Rec.Snap points trans states ∷ behind → last_snap behind ≡ None
        → HasLastSnap (held before) points trans states (staying rs) }
{}

/// Worked rows. A task `c` that is defined, deleted and defined again, and never enabled, leaves one Define; one that
/// had a life leaves all its records; enabling and disabling twice leave one of each; of two snapshots the second
/// stays.
pub fn staying_rows()
    ensures twice { staying (Rec.Define (99 ∷ []) [] false ∷ Rec.Delete (99 ∷ [])
        ∷ Rec.Define (99 ∷ []) [] false ∷ []) ≡ Rec.Define (99 ∷ []) [] false ∷ [] }
    ensures lived { staying (Rec.Define (99 ∷ []) [] true ∷ Rec.Delete (99 ∷ []) ∷ [])
        ≡ Rec.Define (99 ∷ []) [] true ∷ Rec.Delete (99 ∷ []) ∷ [] }
    ensures again { staying (Rec.Define (99 ∷ []) [] false ∷ Rec.Disable (99 ∷ [])
        ∷ Rec.Enable (99 ∷ []) ∷ Rec.Enable (99 ∷ []) ∷ []) ≡ Rec.Define (99 ∷ []) [] false
        ∷ Rec.Enable (99 ∷ []) ∷ [] }
    ensures snaps { staying (Rec.Snap 0 0 (0 ∷ 0 ∷ 0 ∷ 0 ∷ []) ∷ Rec.Batch [] [] [] ∷ Rec.Trans []
        ∷ Rec.Snap 0 0 (0 ∷ 0 ∷ 0 ∷ 0 ∷ []) ∷ []) ≡ Rec.Batch [] [] [] ∷ Rec.Trans []
        ∷ Rec.Snap 0 0 (0 ∷ 0 ∷ 0 ∷ 0 ∷ []) ∷ [] }
{}
