//! What a store exports is read again: a law, and no code.

ghost use Rattle.std.specs.Prelude.{◌≤◌, List, length};
ghost use Rattle.std.specs.List.{AllByRecursion as Each};
ghost use Rattle.recording_file.specs.Recording.{Recording};
ghost use Rattle.recording_file.specs.declared.lines.TheConstants.{RECORDING_LIMIT};
ghost use Rattle.store_records.specs.Histories.{Follow, held};
ghost use Rattle.store_records.specs.declared.rec.Rec.{Rec};
ghost use Rattle.store_lists.specs.Exports.{HasShortLines};
ghost use Rattle.store_lists.specs.Lists.{points_text};

use recording_file::records_are_read_again;

/// What a store exports is a recording, and its points are the store's: where no line of a point is too long
/// for a recording, no database and no policy ends in a carriage return, and all are no longer than a
/// recording may be.
pub fn exports_are_read_again()
    ensures { (rs : List Rec) → Follow rs → Each HasShortLines (held rs).points
        → length (points_text (held rs).points) ≤ RECORDING_LIMIT
        → Recording (points_text (held rs).points) (held rs).points }
{
    records_are_read_again();
}
