ghost use Rattle.std.specs.Prelude.{◌≡◌, ◌≤◌, ◌++◌, ◌↔◌, ◌^◌, ℕ, List, All, length, map};
ghost use Rattle.std.specs.List.{flat_map};
ghost use Rattle.kap_base.specs.Points.{PointValue};
ghost use Rattle.recording_file.specs.declared.lines.TheConstants.{RECORDING_LIMIT};
ghost use Rattle.recording_file.specs.Recording.{Recording, Ended, GoesOn, reading_of, reading_so_far};
ghost use Rattle.recording_file.specs.Printed.{IsRecordable, read_again, record_text};

/// The law of recordings. Reading bytes ends between two groups exactly where they are a recording, and gives
/// its points. It does nothing: its contract is that law.
pub fn recordings_are_groups()
    ensures { (bytes : List ℕ) (points : List PointValue) → (Recording bytes points)
        ↔ (reading_of bytes ≡ record { points = points; stop = Ended }) }
{}

/// The law of records. The records of points, one behind the other, are a recording of these points, without
/// what they are grouped by. It does nothing: its contract is that law.
pub fn records_are_read_again()
    ensures { (points : List PointValue) → All IsRecordable points
        → length (flat_map record_text points) ≤ RECORDING_LIMIT
        → Recording (flat_map record_text points) (map read_again points) }
{}

/// The law of prefixes. What bytes give that others may follow comes first in what they give with these, and
/// a fault there is the fault with these too. It does nothing: its contract is that law.
pub fn readings_go_on()
    ensures { (bytes more : List ℕ) → length bytes ≤ RECORDING_LIMIT
        → GoesOn (reading_so_far bytes) (reading_of (bytes ++ more)) }
{}

/// The limit of recordings, as a number: 1 GiB. It does nothing: its contract is that law.
pub fn limit_of_recordings()
    ensures { RECORDING_LIMIT ≡ 2 ^ 30 }
{}
