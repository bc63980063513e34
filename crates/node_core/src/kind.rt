ghost use Rattle.std.specs.Prelude.{◌≡◌, ◌<◌, ℕ, Bool, false, [], ◌∷◌, ◌++◌, List, IfOk, OnOk};
ghost use Rattle.kap_base.specs.declared.items.Body.{Body};
ghost use Rattle.node_core.specs.Meaning.{Arrival, Saying, Turn, silence};

use crate::said::Said;
use kap_base::{Body, NoMemory};
use state_code::Spelled;
use std::alloc::Global;

/// A kind of node with its arguments: what it says of what arrives, without stamps.
pub trait Kind {
    /// What it keeps.
    type State: Spelled + Drop;

    /// The number of ports.
    ghost ports: { Self → ℕ };

    /// The bodies that are for it. Of another one it says nothing.
    ghost takes: { Self → Body → Bool };

    /// What it says of an arrival, by the arrivals before it.
    ghost saying: { Self → Saying };

    /// What it keeps before the first arrival.
    ghost begin: { Self → Self.State };

    /// What an arrival makes of what it keeps, and what it says of it.
    ghost step: { Self → Self.State → Arrival → Turn Self.State };

    /// What is kept is that of these arrivals.
    ghost kept: { Self → List Arrival → Self.State → Type 0 };

    /// What it keeps before the first arrival.
    fn first(&self, alloc: Global) -> Self::State
        ensures { result ≡ begin self.now };

    /// Takes what arrives at a port. The kind stays. After NoMemory its state is any.
    fn feed(
        &mut self,
        alloc: Global,
        state: &mut Self::State,
        port: u32,
        body: Body,
    ) -> Result<Said, NoMemory>
        requires { port < ports self.old }
        ensures kind { self.new ≡ self.old }
        ensures state { OnOk result (state.new ≡ (step self.old state.old (port, body)).state) }
        ensures said { IfOk result (λ said. said ≡ (step self.old state.old (port, body)).said) };

    ghost begins: { (k : Self) → kept k [] (begin k) };

    ghost goes_on: { (k : Self) (before : List Arrival) (s : Self.State) (x : Arrival)
        → kept k before s → kept k (before ++ x ∷ []) (step k s x).state };

    ghost says: { (k : Self) (before : List Arrival) (s : Self.State) (x : Arrival)
        → kept k before s → (step k s x).said ≡ saying k before x };

    ghost stays: { (k : Self) (s : Self.State) (x : Arrival)
        → takes k x.1 ≡ false → step k s x ≡ record { state = s; said = silence } };
}
