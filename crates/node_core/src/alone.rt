ghost use Rattle.std.specs.Prelude.{◌≡◌, ◌<◌, ℕ, Bool, false, IfOk, refl};
ghost use Rattle.kap_base.specs.declared.items.Body.{Body};
ghost use Rattle.node_core.specs.Alone.{NothingKept, alone_stays};
ghost use Rattle.node_core.specs.Meaning.{silence};
ghost use Rattle.node_core.specs.declared.said.Said.{Said};

use crate::kind::Kind;
use crate::said::Said;
use kap_base::{Body, NoMemory};
use std::alloc::Global;

/// What a node does with each point or batch by itself.
pub trait Plain {
    /// The number of ports.
    ghost ports: { Self → ℕ };

    /// The bodies that are for it.
    ghost takes: { Self → Body → Bool };

    /// What is said of a body that came at a port.
    ghost says: { Self → ℕ → Body → Said };

    /// Takes a body that came at a port. What does it stays.
    fn feed(&mut self, alloc: Global, port: u32, body: Body) -> Result<Said, NoMemory>
        requires { port < ports self.old }
        ensures plain { self.new ≡ self.old }
        ensures said { IfOk result (λ said. said ≡ says self.old port body) };

    /// Nothing is said of a body of the other sort.
    ghost silent: { (k : Self) (port : ℕ) (body : Body)
        → takes k body ≡ false → says k port body ≡ silence };
}

/// The kind that treats each body by itself, and keeps nothing.
#[derive(Drop)]
pub struct Alone<P> {
    pub plain: P,
}

impl<P: Plain + Drop> Kind for Alone<P> {
    type State = ();

    ghost ports = { λ k. P.ports k.plain };

    ghost takes = { λ k. P.takes k.plain };

    ghost saying = { λ k before x. P.says k.plain x.0 x.1 };

    ghost begin = { λ k. tt };

    ghost step = { λ k s x. record { state = s; said = P.says k.plain x.0 x.1 } };

    ghost kept = { λ k. NothingKept };

    ghost begins = { λ k. tt };

    ghost goes_on = { λ k before s x h. tt };

    ghost says = { λ k before s x h. refl };

    ghost stays = { λ k s x h. alone_stays s (P.says k.plain x.0 x.1)
        (P.silent k.plain x.0 x.1 h) };

    fn first(&self, alloc: Global) {
        let _ = alloc;
    }

    fn feed(
        &mut self,
        alloc: Global,
        state: &mut (),
        port: u32,
        body: Body,
    ) -> Result<Said, NoMemory> {
        let _ = state;
        self.plain.feed(alloc, port, body)
    }
}
