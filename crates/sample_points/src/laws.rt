//! Laws of the sample recording, and no code.

ghost use Rattle.std.specs.Prelude.{◌≡◌, ◌≤◌, ◌^◌, ℕ};
ghost use Rattle.recording_file.specs.Printed.{record_text};
ghost use Rattle.recording_file.specs.Recording.{Recording};
ghost use Rattle.sample_points.specs.declared.samples.TheConstants.{SAMPLE_LIMIT};
ghost use Rattle.sample_points.specs.Samples.{sample_of, sample_record, sample_text, samples};

/// What the record of a point of the sample recording is, letter by letter. It does nothing: its contract is
/// that law.
#[tactic(auto, using(crate::proofs::SampleLaws::record_is_spelled))]
pub fn sample_points_are_spelled()
    ensures { (i : ℕ) → i ≤ SAMPLE_LIMIT → record_text (sample_of i) ≡ sample_record i }
{}

/// The records of the first points, one behind the other, are a recording of these points. It does nothing:
/// its contract is that law.
pub fn samples_are_a_recording()
    ensures { (n : ℕ) → n ≤ SAMPLE_LIMIT → Recording (sample_text n) (samples n) }
{}

/// The limit of sample recordings, as a number of points. It does nothing: its contract is that law.
pub fn limit_of_samples()
    ensures { SAMPLE_LIMIT ≡ 10 ^ 6 }
{}
