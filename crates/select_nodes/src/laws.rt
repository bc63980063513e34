//! What selects choose: laws, and no code.

ghost use Rattle.std.specs.Prelude.{◌≡◌, ◌++◌, [], ◌∷◌, if◌then◌else◌, ℕ, List, Some};
ghost use Rattle.std.specs.List.{list_any};
ghost use Rattle.std.specs.List.Sorted.{IsSortedBy, IsStableBy};
ghost use Rattle.kap_base.specs.Groups.{GroupValue, IsGroup, group_of};
ghost use Rattle.kap_base.specs.declared.value.Value.{Value};
ghost use Rattle.select_nodes.specs.Choices.{distinct};
ghost use Rattle.kap_base.specs.Values.{is_same_value};
ghost use Rattle.select_nodes.specs.Picks.{PickValue, ReadingValue, first};
ghost use Rattle.select_nodes.specs.Ranks.{IsFirst, by_rank, goes_before};
ghost use Rattle.select_nodes.specs.Results.{IsNamed, result_of};
ghost use Rattle.select_nodes.specs.Rows.{BottomNine, Greatest, Kinds, Least, NoSum, TopThree, WrappedSpread, WrappedSum};
ghost use Rattle.select_nodes.specs.declared.readings.Rank.{Rank};

/// Readings by rank are sorted, and those of one number stand as they came; and they are the only list of
/// which both hold.
pub fn ranks_are_sorted()
    ensures sorted { (rank : Rank) (rs : List ReadingValue)
        → IsSortedBy (goes_before rank) (by_rank rank rs) }
    ensures stable { (rank : Rank) (rs : List ReadingValue)
        → IsStableBy (goes_before rank) rs (by_rank rank rs) }
    ensures only { (rank : Rank) (rs sorted : List ReadingValue)
        → IsSortedBy (goes_before rank) sorted → IsStableBy (goes_before rank) rs sorted
        → sorted ≡ by_rank rank rs }
{}

/// The first reading by rank, which is the one of `min` and `max` and the first of `top` and `bottom`, goes
/// before all that came earlier, and none that came later goes before it.
pub fn first_goes_before_all()
    ensures { (rank : Rank) (rs : List ReadingValue) (r : ReadingValue)
        → first (by_rank rank rs) ≡ Some r → IsFirst (goes_before rank) rs r }
{}

/// A value that comes behind others is told, as the last one, exactly where none of them is the same.
pub fn values_are_told_once()
    ensures { (vs : List Value) (v : Value) → distinct (vs ++ v ∷ [])
        ≡ distinct vs ++ (if list_any (is_same_value v) vs then [] else v ∷ []) }
{}

/// A result of a batch whose group has the batch's measurement, or none, is of that group.
pub fn results_are_of_their_group()
    ensures { (name : List ℕ) (group : GroupValue) (field : List ℕ) (pick : PickValue)
        → IsGroup group → IsNamed name group.name
        → group_of (result_of name group field pick) ≡ group }
{}

/// Examples of what selects choose.
pub fn examples_of_selects()
    ensures top_three { TopThree }
    ensures bottom_nine { BottomNine }
    ensures greatest { Greatest }
    ensures least { Least }
    ensures no_sum { NoSum }
    ensures wrapped_sum { WrappedSum }
    ensures wrapped_spread { WrappedSpread }
    ensures kinds { Kinds }
{}
