//! An engine, and its making.

ghost use Rattle.std.specs.Prelude.{◌<◌, ◌≤◌};
ghost use Rattle.node_workers.specs.declared.TheConstants.{WORKER_LIMIT};

use edge_queue::CAPACITY_LIMIT;
use engine_runs::EngineRun;
use engine_store::{EngineFault, add_transitions, run_store};
use flow_core::Net;
use kap_io::{Disk, Gate};
use lambda_types::Patterns;
use net_run::{NumberingNode, Way, Workers, few_points};
use node_core::Node;
use node_set::ScriptNode;
use node_workers::WORKER_LIMIT;
use std::alloc::Global;
use std::marker::Model;
use std::thread::Threads;
use store_records::Transitions;
use tick_compile::scripts_have_one_answer;
use topic_core::{Topics, transition_laws};
use topic_store::{Store, open_store};

/// An engine: a store on a disk, and the lives of its tasks as they run. Contracts see these two, the
/// transitions that the last change on it stored, and whether a call failed in the middle. Then it is spent:
/// it is made anew.
#[derive(Drop)]
pub struct Engine<N: Node> {
    pub(crate) store: Store,
    pub(crate) run: EngineRun<N>,
    pub(crate) stored: Transitions,
    pub(crate) workers: u32,
    pub(crate) spent: bool,
    ghost some: { 0 < workers },
    ghost few: { workers ≤ WORKER_LIMIT },
}

impl<N: Node> Model for Engine<N> {
    ghost use Rattle.std.specs.Coded.{codes};
    ghost use Rattle.std.specs.Prelude.{◌≡◌, false};
    ghost use Rattle.flow_cells.specs.contracts.parts.Gathered as gathered_effects;
    ghost use Rattle.kap_base.specs.Maps.{key_map_code};
    ghost use Rattle.kap_engine.specs.Engines.{CanWork, EngineValue};

    ghost Value = { EngineValue N };

    ghost coded = { Prim.hlevel (codes, key_map_code, gathered_effects.the_row.coded) };

    ghost view = { λ e. record {
      store = e.store;
      run = e.run;
      stored = e.stored;
      spent = e.spent;
    } };

    ghost invariant = { λ e. e.spent ≡ false → CanWork (record {
      store = e.store;
      run = e.run;
      stored = e.stored;
      spent = e.spent;
    }) };
}

impl<N: ScriptNode + NumberingNode + Send> Engine<N> {
    ghost use Rattle.std.specs.Prelude.{◌≡◌, ℕ, [], false, IfErr, IfOk, IsErrOf, IsTrue, List, OnOk};
    ghost use Rattle.kap_base.specs.Words.{HasRisen};
    ghost use Rattle.lambda_types.specs.Builds.{AtMostOneMore};
    ghost use Rattle.kap_io.specs.Moments.{Moments, Quiet};
    ghost use Rattle.kap_io.specs.declared.disk.Part.{Part};
    ghost use Rattle.edge_queue.specs.declared.TheConstants.{CAPACITY_LIMIT};
    ghost use Rattle.store_kept.specs.Keeping.{AreValid};
    ghost use Rattle.store_records.specs.declared.rec.Rec.{Rec};
    ghost use Rattle.topic_store.specs.Stores.{Stands};
    ghost use Rattle.kap_engine.specs.Engines.{IsEngineBehind};
    ghost use Rattle.engine_store.specs.Faults.{EngineCause, IsAsked, IsNoGood, IsOfOpening};
    ghost use Rattle.engine_store.specs.Good.{IsFull, IsGood, stays_or_good};

    /// Opens the store on a disk, restores the lives of its tasks from its last snapshot, runs them on the
    /// points behind it, and stores the transitions that are missing. It works with so many workers, 1 to 64,
    /// and edges with room for just `capacity` messages, 1 to 65,536.
    pub fn make_engine<D: Disk, P: Patterns, R: Threads + Sync, G: Gate + Sync>(
        rt: &R,
        alloc: Global,
        disk: &mut D,
        workers: u32,
        capacity: u32,
        gate: &G,
        pats: &mut P,
    ) -> Result<Engine<N>, EngineFault>
        requires some_workers { 0 < workers }
        requires few_workers { workers ≤ WORKER_LIMIT }
        requires some_room { 0 < capacity }
        requires room_limit { capacity ≤ CAPACITY_LIMIT }
        ensures opened { IsTrue D.tells → IfOk result (λ engine. (rs : List Rec)
            × Stands rs (D.seen disk.old) × IsAsked N.Node N.planned rs) }
        ensures made { IsTrue D.tells → (rs : List Rec) → Stands rs (D.seen disk.old)
            → IsGood N.Node N.planned rs → IfOk result (λ engine. IsEngineBehind N.Node N.planned rs
            (D.seen disk.new) (D.may_leave disk.new) engine) }
        ensures any_moment { IsTrue D.tells → (rs : List Rec) → Stands rs (D.seen disk.old)
            → IsGood N.Node N.planned rs → Moments D.moment D.may_leave D.left_since disk.old disk.new
            (stays_or_good N.Node N.planned rs) }
        ensures again { IsTrue D.tells → (rs : List Rec) → Stands rs (D.seen disk.old)
            → IsFull N.Node N.planned rs
            → Quiet D.seen D.moment D.may_leave D.left_since disk.old disk.new }
        ensures refused { IsTrue D.tells → (part : Part) (offset : ℕ)
            → IsErrOf result (EngineFault.NotStore part offset) → IsNoGood N.Node N.planned
            (P.refusals pats.old) (P.refusals pats.new) (P.refused pats.new)
            (D.seen disk.old) part offset }
        ensures still { IsTrue D.tells → (part : Part) (offset : ℕ)
            → IsErrOf result (EngineFault.NotStore part offset)
            → Quiet D.seen D.moment D.may_leave D.left_since disk.old disk.new }
        ensures rose { IsTrue D.tells → (rs : List Rec) → Stands rs (D.seen disk.old)
            → IsGood N.Node N.planned rs → (part : Part) (offset : ℕ)
            → IsErrOf result (EngineFault.NotStore part offset)
            → HasRisen (P.refusals pats.old) (P.refusals pats.new) }
        ensures unspent { IfOk result (λ engine. engine.spent ≡ false) }
        ensures usable { IfOk result (λ engine. engine.store.log.spent ≡ false) }
        ensures valid { IfOk result (λ engine. AreValid engine.store.kept) }
        ensures stored { IfOk result (λ engine. engine.stored ≡ []) }
        ensures faults { IfErr result IsOfOpening }
        ensures cause { EngineCause (D.faults disk.old) (D.faults disk.new) result }
        ensures kept { OnOk result (P.refusals pats.new ≡ P.refusals pats.old) }
        ensures counted { AtMostOneMore (P.refusals pats.old) (P.refusals pats.new) }
    {
        transition_laws();
        scripts_have_one_answer();
        let mut store = open_store(alloc, disk)?;
        let least = few_points(store.tasks().len());
        let way = Way::Workers(Workers::new(rt, workers, gate, least));
        let (run, due) = run_store(alloc, &store, disk, capacity, &way, pats)?;
        add_transitions(alloc, &mut store, disk, due)?;
        Ok(Engine {
            store,
            run,
            stored: Transitions::new(alloc),
            workers,
            spent: false,
        })
    }

    /// The store.
    pub fn store(&self) -> &Store
        ensures { result.now ≡ self.now.store }
    {
        &self.store
    }

    /// The topics of all events so far.
    pub fn topics(&self) -> &Topics
        ensures { result.now ≡ self.now.run.topics }
    {
        self.run.topics()
    }

    /// The net of the open lives.
    pub fn net(&self) -> &Net<N>
        ensures { result.now ≡ self.now.run.net }
    {
        self.run.net()
    }

    /// Whether a call on it failed in the middle. It is then to be made anew.
    pub fn spent(&self) -> bool
        ensures { result ≡ self.now.spent }
    {
        self.spent
    }

    /// The transitions that the last change on this engine stored; none behind its making.
    pub fn stored(&self) -> &Transitions
        ensures { result.now ≡ self.now.stored }
    {
        &self.stored
    }

    /// The net itself. It takes no memory.
    pub fn into_net(self) -> Net<N>
        ensures { result ≡ self.run.net }
    {
        let Engine { run, .. } = self;
        run.into_net()
    }
}
