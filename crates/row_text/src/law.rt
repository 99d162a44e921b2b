// What a line tells, and that it can be read back.
ghost use Rattle.std.specs.Prelude.{◌≡◌, Bool};
ghost use Rattle.serde_json.specs.Written.{compact_text};
ghost use Rattle.row_text.specs.Csv.{csv_header, csv_row};
ghost use Rattle.row_text.specs.Laws.{AreAlike, HasBytes, IsOneLine, ReadsBack};
ghost use Rattle.row_text.specs.Laws.{RowFits, VolumeFits};
ghost use Rattle.row_text.specs.Row.{RowView, VolumeView, row_data, volume_data};

/// The line of an entry, and that of a volume, reads as the value that it tells.
pub fn a_line_reads_back()
    ensures row { (r : RowView) → RowFits r → ReadsBack (row_data r) }
    ensures volume { (v : VolumeView) → VolumeFits v → ReadsBack (volume_data v) }
{}

/// Entries that are told by one value are the same, but for texts that are shown alike.
pub fn a_row_tells_entries_apart()
    ensures { (r s : RowView) → HasBytes r → HasBytes s → row_data r ≡ row_data s → AreAlike r s }
{}

/// No line has a line end in it.
pub fn a_line_has_no_end_within()
    ensures row { (r : RowView) → RowFits r → IsOneLine (compact_text (row_data r)) }
    ensures volume { (v : VolumeView) → VolumeFits v → IsOneLine (compact_text (volume_data v)) }
    ensures csv { (r : RowView) → RowFits r → IsOneLine (csv_row r) }
    ensures header { (digests : Bool) → IsOneLine (csv_header digests) }
{}
