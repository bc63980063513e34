//! What the spelling of records keeps: laws, and no code.

ghost use Rattle.std.specs.Prelude.{◌≡◌, ◌++◌, ℕ, List};
ghost use Rattle.state_code.specs.Spelling.{IsBytes, value_then};
ghost use Rattle.store_records.specs.Histories.{Follow, held};
ghost use Rattle.store_records.specs.Orders.{IsInOrder};
ghost use Rattle.store_records.specs.Records.{FitsRecord, read_record, spell_record};
ghost use Rattle.store_records.specs.declared.rec.Rec.{Rec};

/// The laws of the bodies of records. What is spelled is read again whatever follows, what is read is spelled
/// so, and so no body begins another one.
pub fn record_laws()
    ensures again { (r : Rec) (rest : List ℕ) → FitsRecord r
        → read_record (spell_record r ++ rest) ≡ value_then r rest }
    ensures only { (bytes : List ℕ) (r : Rec) (rest : List ℕ) → IsBytes bytes
        → read_record bytes ≡ value_then r rest → FitsRecord r
        × (bytes ≡ spell_record r ++ rest) }
    ensures apart { (a b : Rec) (x y : List ℕ) → FitsRecord a → FitsRecord b
        → spell_record a ++ x ≡ spell_record b ++ y → (a ≡ b) × (x ≡ y) }
{}

/// What holds of a store with any records, each of which may follow those before it: its tasks are valid, at
/// most 64, with ids that rise in byte order; its lives are of valid tasks, and just one is open for each
/// enabled task and none for any other; its last snapshot lies within what is stored.
pub fn held_laws()
    ensures { (rs : List Rec) → Follow rs → IsInOrder (held rs) }
{}
