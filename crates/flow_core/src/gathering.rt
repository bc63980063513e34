//! Effects in their order.

ghost use Rattle.std.specs.Prelude.{◌≡◌, IsPermutation};
ghost use Rattle.flow_core.specs.Sorting.{AreSorted, place_of};

use kap_base::Effect;
use node_core::Effects;

/// Where an effect stands: its stamp, its life, its node and its number.
fn place_of(effect: &Effect) -> (u64, u32, u32, u32)
    ensures { result ≡ place_of effect.now }
{
    (effect.stamp.0, effect.life, effect.node, effect.seq)
}

/// The same effects by stamp, with one stamp by life, in one life by node, and of one node by number. It
/// takes no memory.
pub fn sort_effects(effects: Effects) -> Effects
    ensures same { IsPermutation effects result }
    ensures sorted { AreSorted result }
{
    let mut all = effects.into_items();
    all.sort_unstable_by_key(|effect| place_of(effect));
    Effects::from_items(all)
}
