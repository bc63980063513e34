//! The laws of bytes that are told.

ghost use Rattle.std.specs.Prelude.{ℕ, List, Option, ◌++◌, []};
ghost use Rattle.std.specs.Io.KnownBytes.{Appends, Consumes};
ghost use Rattle.kap_io.specs.Pieces.{Keeps};

/// What reads and writes one behind the other make of the bytes that a source, a sink or a link tells: reads
/// consume and writes append their pieces joined, and what a call keeps stays so, as if it had read or
/// written nothing.
pub fn known_bytes()
    ensures keeps { (a b c : Option (List ℕ)) → Keeps a b → Keeps b c → Keeps a c }
    ensures appends_none { (a b : Option (List ℕ)) → Keeps a b → Appends a b [] }
    ensures consumes_none { (a b : Option (List ℕ)) → Keeps a b → Consumes a b [] }
    ensures appends { (a b c : Option (List ℕ)) (x y : List ℕ) →
        Appends a b x → Appends b c y → Appends a c (x ++ y) }
    ensures appends_kept { (a b c : Option (List ℕ)) (x : List ℕ) →
        Appends a b x → Keeps b c → Appends a c x }
    ensures consumes { (a b c : Option (List ℕ)) (x y : List ℕ) →
        Consumes a b x → Consumes b c y → Consumes a c (x ++ y) }
    ensures consumes_kept { (a b c : Option (List ℕ)) (x : List ℕ) →
        Consumes a b x → Keeps b c → Consumes a c x }
{}
