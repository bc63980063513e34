//! What the definitions of the functions say, in their own words.

ghost use Rattle.std.specs.Prelude.{◌≡◌, ◌≤◌, ◌<◌, ◌+◌, ℕ, List, [], length, Err, None, IsTrue, MatchOption, false, map};
ghost use Rattle.std.specs.Str.{encode_utf8_all};
ghost use Rattle.kap_base.specs.declared.fun.Fun.{Fun};
ghost use Rattle.kap_base.specs.declared.value.Value.{Value};
ghost use Rattle.lambda_fns.specs.declared.fault.EvalFault.TheVariants.{Kind};
ghost use Rattle.lambda_fns.specs.Calls.{fun_value};
ghost use Rattle.lambda_fns.specs.Sorts.{sort_of, takes, fun_sort, IsTyped};
ghost use Rattle.lambda_fns.specs.Texts.{first_place, IsFirst, IsNowhere, text_of_pieces, last_piece, pieces, pieces_between};

/// Of values of its types a function gives a value of its type, or `Range`; of others it gives `Kind`.
pub fn calls_are_typed()
    ensures of_its_types { (fun : Fun) (args : List Value) (at : ℕ)
        → IsTrue (takes fun (map sort_of args)) → IsTyped (fun_sort fun) at (fun_value fun args at) }
    ensures of_others { (fun : Fun) (args : List Value) (at : ℕ)
        → takes fun (map sort_of args) ≡ false → fun_value fun args at ≡ Err (Kind at) }
{}

/// What `strIndex` finds: the first place of a text in another is one where it stands, and it stands at none
/// before; where there is no first place, it stands nowhere.
pub fn first_places_are_first()
    ensures { (a s : List ℕ) → MatchOption (first_place a s) (IsNowhere a s) (λ i. IsFirst a s i) }
{}

/// Where `strReplace` puts its text: between pieces that make the text again with what is replaced between
/// them, at most so many places and one; and where there may be more places than bytes, no place is left in
/// the last piece.
pub fn pieces_are_pieces()
    ensures again { (n : ℕ) (a s : List ℕ) → text_of_pieces a (pieces n a s) ≡ s }
    ensures at_most { (n : ℕ) (a s : List ℕ) → length (pieces n a s) ≤ n + 1 }
    ensures none_is_left { (n : ℕ) (a s : List ℕ)
        → 0 < length a → length s < n → first_place a (last_piece (pieces n a s)) ≡ None }
    ensures characters { (n : ℕ) (cs : List ℕ)
        → text_of_pieces [] (pieces_between n cs) ≡ encode_utf8_all cs }
{}
