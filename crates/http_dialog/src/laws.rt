//! The laws of a connection that shares what answers its requests with others.

ghost use Rattle.std.specs.Prelude.{◌≢◌, ◌++◌, ℕ, List, Option, All};
ghost use Rattle.kap_http.specs.Calls.{AddsCalls, Call};
ghost use Rattle.http_dialog.specs.Dialogs.{DialogValue, IsOf};
ghost use Rattle.http_dialog.specs.Links.{Goes};
ghost use Rattle.http_dialog.specs.Numbers.{AddsOf};

/// Calls are counted by the number of their connection, since one `Serve` answers the requests of many: those
/// of the connection come behind its earlier ones, and those of others change nothing of it. So what is told
/// of a connection goes on while others are served.
pub fn numbered_calls()
    ensures own { (number : ℕ) (a b c : Option (List Call)) (calls more : List Call) →
        AddsOf number a b calls → AddsCalls b c more → All (IsOf number) more →
        AddsOf number a c (calls ++ more) }
    ensures others { (number : ℕ) (a b c : Option (List Call)) (calls more : List Call) →
        AddsOf number a b calls → AddsCalls b c more → All (λ k. k.number ≢ number) more →
        AddsOf number a c calls }
    ensures goes { (number : ℕ) (l m v w : Option (List ℕ)) (a b c : Option (List Call))
        (dialog : DialogValue) (more : List Call) → Goes number l m a b v w dialog →
        AddsCalls b c more → All (λ k. k.number ≢ number) more → Goes number l m a c v w dialog }
{}
