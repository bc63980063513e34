//! What holds of definitions: laws, and no code.

ghost use Rattle.std.specs.Prelude.{◌≡◌, ℕ, List, IsTrue, bytes_eq};
ghost use Rattle.std.specs.List.{list_any};
ghost use Rattle.kap_base.specs.Points.{rises};
ghost use Rattle.basic_nodes.specs.Dimensions.{in_order};
ghost use Rattle.basic_nodes.specs.Rows.{BehindTheLastTime, FalseIsSilent, FaultIsDropped, FirstOfTwo, GroupsAnew, LastTime, NameStays, OtherMeasurement, OtherPolicy, SecondOfTwo, SeesAll, ThirdOfTwo, TrueIsPassed};

/// Dimensions are the names that a script gives, whatever their order and however often each is given: they
/// rise, and a text is one of them exactly where it is one of the names.
#[tactic(auto, using(crate::proofs::DimensionLaws::ordered))]
pub fn dimensions_are_the_names()
    ensures rising { (names : List (List ℕ)) → IsTrue (rises (in_order names)) }
    ensures same { (text : List ℕ) (names : List (List ℕ))
        → list_any (bytes_eq text) (in_order names) ≡ list_any (bytes_eq text) names }
{}

/// Examples of what nodes say of points.
pub fn examples_of_points()
    ensures sees_all { SeesAll }
    ensures other_policy { OtherPolicy }
    ensures fault_is_dropped { FaultIsDropped }
    ensures true_is_passed { TrueIsPassed }
    ensures false_is_silent { FalseIsSilent }
    ensures groups_anew { GroupsAnew }
    ensures other_measurement { OtherMeasurement }
    ensures name_stays { NameStays }
    ensures last_time { LastTime }
    ensures behind_the_last_time { BehindTheLastTime }
    ensures first_of_two { FirstOfTwo }
    ensures second_of_two { SecondOfTwo }
    ensures third_of_two { ThirdOfTwo }
{}
