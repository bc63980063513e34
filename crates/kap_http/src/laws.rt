//! The laws of reading.

ghost use Rattle.std.specs.Prelude.{◌≡◌, ◌+◌, ◌<◌, ◌≤◌, ◌⊎◌, ◌++◌, ◌∷◌, [], ℕ, List, None, Some, Ok, Err, drop, false, length};
ghost use Rattle.kap_http.specs.declared.fault.HttpFault.{HttpFault};
ghost use Rattle.kap_http.specs.HeadValues.{HeadValue};
ghost use Rattle.kap_http.specs.RequestValues.{RequestValue};
ghost use Rattle.kap_http.specs.Reading.{Gives, GivesHead, IsLostInTarget, ReadResult, whole_in};
ghost use Rattle.kap_http.specs.Requests.{Stop, Requests, BeginsWith, IsFinal, IsLostBehind};

/// The law of a request. What bytes give is one answer, but for bytes that end inside a target that no head
/// has. A request that was read stays read whatever follows, and so does a fault. A request takes some bytes,
/// and no more than there are.
pub fn one_answer()
    ensures one { (bytes : List ℕ) (a b : ReadResult) →
        Gives bytes a → Gives bytes b → (a ≡ b) ⊎ IsLostInTarget bytes }
    ensures one_request { (bytes : List ℕ) (r : RequestValue) (n : ℕ) (b : ReadResult) →
        Gives bytes (Ok (Some (r, n))) → Gives bytes b → Ok (Some (r, n)) ≡ b }
    ensures stays { (bytes more : List ℕ) (r : RequestValue) (n : ℕ) →
        Gives bytes (Ok (Some (r, n))) → Gives (bytes ++ more) (Ok (Some (r, n))) }
    ensures stays_refused { (bytes more : List ℕ) (fault : HttpFault) →
        Gives bytes (Err fault) → Gives (bytes ++ more) (Err fault) }
    ensures within { (bytes : List ℕ) (r : RequestValue) (n : ℕ) →
        Gives bytes (Ok (Some (r, n))) → (0 < n) × (n ≤ length bytes) }
{}

/// The law of a head that is read first. Whatever follows the bytes that it was read from, what all of them
/// give is its request where they are as many as it tells, and None where they are fewer. Where bytes give no
/// head, what they give is the same, None or the fault.
pub fn head_first()
    ensures whole { (bytes more : List ℕ) (head : HeadValue) → GivesHead bytes (Ok (Some head)) →
        Gives (bytes ++ more) (Ok (whole_in head (bytes ++ more))) }
    ensures waits { (bytes : List ℕ) → GivesHead bytes (Ok None) → Gives bytes (Ok None) }
    ensures refused { (bytes : List ℕ) (fault : HttpFault) →
        GivesHead bytes (Err fault) → Gives bytes (Err fault) }
{}

/// The law of a connection's bytes. They hold one list of requests and stop in one way, but where the rest
/// ends inside a target that no head has. What comes in pieces holds the requests that the whole holds: those
/// that were read stay, with what follows behind them, and the next one is read from there; and behind the
/// last, the thousandth and at a fault nothing that follows is looked at.
pub fn in_pieces()
    ensures more { (bytes more : List ℕ) (requests : List RequestValue) (rest : List ℕ) →
        BeginsWith bytes requests rest → BeginsWith (bytes ++ more) requests (rest ++ more) }
    ensures next { (bytes : List ℕ) (requests : List RequestValue) (rest : List ℕ)
        (r : RequestValue) (n : ℕ) →
        BeginsWith bytes requests rest → Gives rest (Ok (Some (r, n))) → r.last ≡ false →
        BeginsWith bytes (requests ++ r ∷ []) (drop n rest) }
    ensures whole { (bytes : List ℕ) (requests : List RequestValue) (rest : List ℕ)
        (left : ℕ) (behind : List RequestValue) (stop : Stop) →
        BeginsWith bytes requests rest → Requests left rest behind stop →
        Requests (length requests + left) bytes (requests ++ behind) stop }
    ensures stays { (left : ℕ) (bytes more : List ℕ) (requests : List RequestValue)
        (stop : Stop) →
        IsFinal stop → Requests left bytes requests stop →
        Requests left (bytes ++ more) requests stop }
    ensures one { (left : ℕ) (bytes : List ℕ) (a b : List RequestValue) (x y : Stop) →
        Requests left bytes a x → Requests left bytes b y →
        (a ≡ b) × ((x ≡ y) ⊎ IsLostBehind bytes a) }
{}
