ghost use Rattle.std.specs.Prelude.{◌≡◌, ◌≢◌, List, [], IsSome, unwrap_or};
ghost use Rattle.sfx_ids.specs.declared.cut.Cut.{Cut};
ghost use Rattle.sfx_segments.specs.Segments.{segment_at, value_at, AreSegments, AgreeEverywhere};

/// Segments are determined by their values: two lists of segments that agree at every place are equal.
/// Such a list is never empty, and has a value at every cut, so that a value given for where there is none
/// is never taken.
pub fn segments_are_their_values<T>()
    ensures one_form { (xs ys : List (Cut × T)) → AreSegments xs → AreSegments ys → AgreeEverywhere xs ys → xs ≡ ys }
    ensures never_empty { (xs : List (Cut × T)) → AreSegments xs → xs ≢ [] }
    ensures total { (xs : List (Cut × T)) → AreSegments xs → (place : Cut) → IsSome (value_at xs place) }
    ensures or_else { (xs : List (Cut × T)) → (before : T) → (place : Cut) →
        segment_at before xs place ≡ unwrap_or (value_at xs place) before }
{}
