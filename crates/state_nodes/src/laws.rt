//! What holds of definitions: laws, and no code.

ghost use Rattle.std.specs.Prelude.{◌≡◌, ◌↔◌, IsTrue, Option};
ghost use Rattle.kap_base.specs.declared.value.Value.{Value};
ghost use Rattle.state_nodes.specs.ChangeDetects.{is_same};
ghost use Rattle.state_nodes.specs.Rows.{DifferenceWraps, FallingTimes, FalseEndsARow, FaultIsDropped, FirstInteger, FirstIsAChange, FirstTrue, FirstWithTheField, KindsDiffer, LessThanBefore, MissingDiffers, NoInteger, RowGoesOn, SecondTrue, SumWraps, WholeUnits};

/// What stands at a field is the same at two points exactly where it is of one kind and equal, or is missing
/// at both.
#[tactic(auto, using(crate::proofs::ChangeLaws::same_exactly))]
pub fn fields_are_told_apart()
    ensures { (a b : Option Value) → IsTrue (is_same a b) ↔ (a ≡ b) }
{}

/// Examples of what nodes say of points.
pub fn examples_of_states()
    ensures first_true { FirstTrue }
    ensures second_true { SecondTrue }
    ensures fault_is_dropped { FaultIsDropped }
    ensures row_goes_on { RowGoesOn }
    ensures false_ends_a_row { FalseEndsARow }
    ensures first_is_a_change { FirstIsAChange }
    ensures kinds_differ { KindsDiffer }
    ensures missing_differs { MissingDiffers }
    ensures first_integer { FirstInteger }
    ensures less_than_before { LessThanBefore }
    ensures difference_wraps { DifferenceWraps }
    ensures sum_wraps { SumWraps }
    ensures no_integer { NoInteger }
    ensures whole_units { WholeUnits }
    ensures falling_times { FallingTimes }
    ensures first_with_the_field { FirstWithTheField }
{}
