//! Laws of cells, and no code.

ghost use Rattle.std.specs.Prelude.{◌≡◌, ℕ, List, [], ◌∷◌, ◌++◌};
ghost use Rattle.kap_base.specs.declared.items.Msg.TheVariants as messages;
ghost use Rattle.kap_base.specs.declared.items.Stamp.{Stamp};
ghost use Rattle.node_core.specs.Meaning.{fold};
ghost use Rattle.merge_node.specs.Merge.{Entry, items};
ghost use Rattle.flow_cells.specs.Outs.{item_msgs};
ghost use Rattle.flow_cells.specs.Promises.{state_at};
ghost use Rattle.flow_cells.specs.Runs.{Run, before_last, inputs, run};

use node_core::Node;

/// What a cell keeps of its node is what the node's fold gives on the items that were handled: the state, the
/// effects, the items that are given out, and the state saved at the last barrier; and a barrier goes on
/// behind what the items up to it gave.
pub fn runs_are_folds<N: Node>()
    ensures state { (p : N.Spec) (r : Run N.State) (handled : List Entry)
        → (run (N.step p) r handled).state ≡ (fold (N.step p) r.state (inputs handled)).state }
    ensures effects { (p : N.Spec) (r : Run N.State) (handled : List Entry)
        → (run (N.step p) r handled).effects
        ≡ r.effects ++ (fold (N.step p) r.state (inputs handled)).given.effects }
    ensures items { (p : N.Spec) (r : Run N.State) (handled : List Entry)
        → items (run (N.step p) r handled).outs
        ≡ items r.outs ++ item_msgs (fold (N.step p) r.state (inputs handled)).given.items }
    ensures saved { (p : N.Spec) (r : Run N.State) (handled : List Entry)
        → (run (N.step p) r handled).saved ≡ state_at (N.step p) r (before_last handled) }
    ensures barriers { (p : N.Spec) (r : Run N.State) (handled : List Entry)
        (parent : ℕ) (b : Stamp)
        → (run (N.step p) r (handled ++ (parent, messages.Barrier b) ∷ [])).outs
        ≡ (run (N.step p) r handled).outs ++ messages.Barrier b ∷ [] }
{}
