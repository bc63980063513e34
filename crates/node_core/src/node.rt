ghost use Rattle.std.specs.Prelude.{◌≡◌, ◌<◌, ℕ, Bool, false, ◌++◌, List, OnOk, OnErr};
ghost use Rattle.kap_base.specs.declared.items.Body.{Body};
ghost use Rattle.node_core.specs.Cut.{IsStamped};
ghost use Rattle.node_core.specs.Meaning.{Move, Input, Answer, fold, given, stay};
ghost use Rattle.node_core.specs.Loads.{Loads};
ghost use Rattle.state_code.specs.Spelling.{IsSpelling, Reading};

use kap_base::{Bytes, Effect, Item, ItemList, NoMemory};
use state_code::{CodeFault, Cursor};
use std::alloc::Global;

/// A machine that is fed items at its ports, as nets see it.
pub trait Node: Drop {
    /// Its kind with its arguments, its life and its number.
    type Spec;

    /// What it keeps.
    type State;

    ghost spec: { Self → Self.Spec };

    ghost state: { Self → Self.State };

    /// The number of its parents; 1 for a stream, which has none.
    ghost ports: { Self.Spec → ℕ };

    /// The number of the life in which it runs.
    ghost life: { Self.Spec → ℕ };

    /// Its number in its task.
    ghost number: { Self.Spec → ℕ };

    /// The bodies that are for it, points or batches.
    ghost takes: { Self.Spec → Body → Bool };

    /// What it gives at an input, by the inputs before it.
    ghost answer: { Self.Spec → Answer };

    /// Its state before the first input.
    ghost first: { Self.Spec → Self.State };

    /// What an input makes of its state, and what it gives.
    ghost step: { Self.Spec → Self.State → Input → Move Self.State };

    /// How many inputs were dropped and counted.
    ghost drops: { Self.State → ℕ };

    /// The state is one of a node of this spec, and has a spelling.
    ghost fits: { Self.Spec → Self.State → Type 0 };

    /// The spelling of a state of a node of this spec.
    ghost spell: { Self.Spec → Self.State → List ℕ };

    /// The state of a node of this spec that bytes begin with, and the bytes behind it.
    ghost read: { Self.Spec → Reading Self.State };

    /// Takes an item that came at a port. After NoMemory the node is spent: what it keeps, and what of this
    /// item stands in `out` and `effects`, is unknown.
    fn feed(
        &mut self,
        alloc: Global,
        port: u32,
        item: Item,
        out: &mut ItemList<Item>,
        effects: &mut ItemList<Effect>,
    ) -> Result<(), NoMemory>
        requires { port < ports (spec self.old) }
        ensures spec { spec self.new ≡ spec self.old }
        ensures state { OnOk result
            (state self.new ≡ (step (spec self.old) (state self.old) (port, item)).state) }
        ensures items { OnOk result (out.new
            ≡ out.old ++ (step (spec self.old) (state self.old) (port, item)).given.items) }
        ensures effects { OnOk result (effects.new
            ≡ effects.old ++ (step (spec self.old) (state self.old) (port, item)).given.effects) };

    /// Appends the spelling of its state. After NoMemory `to` is as before.
    fn save(&self, to: &mut Bytes) -> Result<(), NoMemory>
        ensures ok { OnOk result (to.new ≡ to.old ++ spell (spec self.now) (state self.now)) }
        ensures fits { OnOk result (fits (spec self.now) (state self.now)) }
        ensures err { OnErr result (to.new ≡ to.old) };

    /// Takes the state whose spelling stands at the cursor. `At` the cursor's offset exactly where no
    /// spelling of a state of a node of this spec stands there. After any `Err` the cursor stays, and so does
    /// the state.
    fn load(&mut self, alloc: Global, from: &mut Cursor) -> Result<(), CodeFault>
        ensures spec { spec self.new ≡ spec self.old }
        ensures loaded { Loads (read (spec self.old)) from.old from.new
            (state self.old) (state self.new) result };

    /// How many inputs were dropped and counted.
    fn dropped(&self) -> u64
        ensures { result ≡ drops (state self.now) };

    /// Fed a whole list from the first state on, it gives what the node gives for the list.
    ghost folds: { (p : Self.Spec) (xs : List Input)
        → (fold (step p) (first p) xs).given ≡ given (answer p) xs };

    /// And it has dropped and counted what the node drops in the list.
    ghost counts: { (p : Self.Spec) (xs : List Input)
        → drops (fold (step p) (first p) xs).state ≡ (given (answer p) xs).drops };

    /// All that it gives has the stamp of the input, and effects its life and its number.
    ghost stamped: { (p : Self.Spec) (before : List Input) (x : Input)
        → IsStamped (life p) (number p) x.1.stamp.0 (answer p before x) };

    /// An item of the other sort gives nothing and changes nothing.
    ghost stays: { (p : Self.Spec) (s : Self.State) (x : Input)
        → takes p x.1.body ≡ false → step p s x ≡ stay s };

    /// What is spelled is read again whatever follows, and only what is spelled is read.
    ghost spelled: { (p : Self.Spec) → IsSpelling (fits p) (spell p) (read p) };
}
