//! Laws of merging, and no code.

ghost use Rattle.std.specs.Prelude.{◌≡◌, ℕ, ◌<◌, List, [], None, length, slice_index_or};
ghost use mathlib.Core.List.{IsPrefix};
ghost use Rattle.kap_base.specs.declared.items.Stamp.{Stamp};
ghost use Rattle.merge_node.specs.Buffers.{AreFronts, Calls, next};
ghost use Rattle.merge_node.specs.Merge.{AreClosed, AreMergeable, AreOrdered, Entry, Lists, from_parent, merge};

/// In whatever order messages are put and taken, what was given is the front of the whole lists merged. It is
/// all of it where all was put, a barrier stands behind each item, and nothing more is next. And what is
/// given of what was put is always the same.
#[tactic(auto, using(crate::proofs::CallLaws::calls_front, crate::proofs::CallLaws::calls_whole, crate::proofs::CallLaws::calls_same))]
pub fn calls_give_the_merged_list()
    ensures front { (bs : List Stamp) (all whole buffered : Lists) (given : List Entry)
        → Calls all given buffered → AreFronts all whole → AreMergeable bs whole
        → IsPrefix given (merge whole) }
    ensures whole { (bs : List Stamp) (whole buffered : Lists) (given : List Entry)
        → Calls whole given buffered → AreMergeable bs whole → AreClosed whole
        → next buffered ≡ None → given ≡ merge whole }
    ensures same { (all buffered others : Lists) (given again : List Entry)
        → Calls all given buffered → Calls all again others
        → next buffered ≡ None → next others ≡ None → given ≡ again }
{}

/// A merged list stands by stamp, then by parent, with each barrier behind the items up to it; and of each
/// parent it has the list that was merged, in its order.
#[tactic(auto, using(crate::proofs::OrderLaws::merge_ordered, crate::proofs::OrderLaws::merge_has))]
pub fn merging_orders()
    ensures ordered { (lists : Lists) → AreOrdered (merge lists) }
    ensures has { (bs : List Stamp) (lists : Lists) (parent : ℕ)
        → AreMergeable bs lists → parent < length lists
        → from_parent parent (merge lists) ≡ slice_index_or lists parent [] }
{}
