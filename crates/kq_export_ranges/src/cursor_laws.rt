// Laws of ranges, which hold of the definitions alone.
ghost use Rattle.std.specs.Prelude.{◌<◌, ◌≤◌, ℕ, List};
ghost use Rattle.kq_export_ranges.specs.declared.range.ExportRange.{ExportRange};
ghost use Rattle.kq_export_ranges.specs.Ranges.{AreInTurn, InOne, last_end};

/// Consecutive ranges from cursor 0 on hold each cursor up to the last end, in exactly one of them.
pub fn each_cursor_is_in_one_range()
    ensures { (c : ℕ) (rs : List ExportRange) → AreInTurn 0 rs → 0 < c → c ≤ last_end 0 rs → InOne c rs }
{}
