//! What holds of all nodes: laws, and no code.

ghost use Rattle.std.specs.Prelude.{◌≡◌, ℕ, [], List};
ghost use Rattle.kap_base.specs.Groups.{group_of};
ghost use Rattle.kap_base.specs.Points.{PointValue, IsPoint};
ghost use Rattle.node_core.specs.Cut.{AllUpTo, InOrder};
ghost use Rattle.node_core.specs.Keys.{group_key};
ghost use Rattle.node_core.specs.Meaning.{Saying, Input};
ghost use Rattle.node_core.specs.Numbering.{given_with, number_at, tally};

/// Where stamps don't fall, the next effect's number is the number of all effects that were given before with
/// its stamp.
#[tactic(auto, using(crate::proofs::SeqLaws::numbers_count))]
pub fn numbers_count_effects()
    ensures { (saying : Saying) (before : List Input) (stamp : ℕ)
        → InOrder before → AllUpTo stamp before
        → number_at (tally saying before) stamp ≡ given_with stamp saying [] before }
{}

/// Points are of one group exactly where they have one key.
#[tactic(auto, using(crate::proofs::KeyLaws::same_group_same_key, crate::proofs::KeyLaws::same_key_same_group))]
pub fn one_key_one_group()
    ensures one_group { (p q : PointValue) → IsPoint p → IsPoint q
        → group_key p ≡ group_key q → group_of p ≡ group_of q }
    ensures one_key { (p q : PointValue) → group_of p ≡ group_of q → group_key p ≡ group_key q }
{}
