ghost use Rattle.std.specs.Prelude.{◌≡◌, ◌↔◌, ◌^◌, ℕ, List, Option, Result};
ghost use Rattle.kap_base.specs.Points.{PointValue};
ghost use Rattle.line_points.specs.declared.fault.LineFault.{LineFault};
ghost use Rattle.line_points.specs.declared.line.TheConstants.{LINE_LIMIT};
ghost use Rattle.line_points.specs.declared.mode.Mode.{Mode};
ghost use Rattle.line_points.specs.declared.room.TheConstants.{SPARE_LIMIT};
ghost use Rattle.line_points.specs.Line.{Reads, Blank, Faulty};
ghost use Rattle.line_points.specs.Grammar.{IsBlank};
ghost use Rattle.line_points.specs.FaultRows.{FaultOfLine};
ghost use Rattle.line_points.specs.Answered.{PointOfLine, LineMeans};

/// The law of lines. In the words of the grammar each line spells a point, is blank, or stands in a row of
/// the table of faults, and no line does two of these, spells two points or stands in the rows of two faults.
pub fn one_meaning()
    ensures some { (db rp line : List ℕ) (mode : Mode) →
        (r : Result (Option PointValue) LineFault) × LineMeans db rp mode line r }
    ensures one { (db rp line : List ℕ) (mode : Mode) (r s : Result (Option PointValue) LineFault) →
        LineMeans db rp mode line r → LineMeans db rp mode line s → r ≡ s }
{}

/// The law of blank lines. A line is read as blank exactly where the mode is Live and the line is spaces, or
/// spaces and a comment.
pub fn blank_lines()
    ensures { (db rp line : List ℕ) (mode : Mode) → (Blank db rp mode line) ↔ (IsBlank mode line) }
{}

/// The law of spellings. A line reads as a point exactly where it spells the point, whatever spelling was
/// chosen for each part, the point is ungrouped and of the database and policy at hand, and the line is UTF-8
/// and has at most `LINE_LIMIT` bytes.
pub fn each_spelling()
    ensures { (db rp line : List ℕ) (mode : Mode) (p : PointValue) →
        (Reads db rp mode line p) ↔ (PointOfLine db rp mode line p) }
{}

/// The law of faults. A line is read as faulty exactly where it stands in that fault's row of the table: the
/// line is spelled up to a place, and what stands there is what the row says.
pub fn fault_rows()
    ensures { (db rp line : List ℕ) (mode : Mode) (f : LineFault) →
        (Faulty db rp mode line f) ↔ (FaultOfLine mode line f) }
{}

/// The limits of lines, and of the points that are kept for next ones, as numbers.
pub fn limits_of_lines()
    ensures line { LINE_LIMIT ≡ 2 ^ 16 }
    ensures spares { SPARE_LIMIT ≡ 1280 }
{}
