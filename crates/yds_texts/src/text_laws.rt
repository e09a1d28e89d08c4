//! The laws of lines and fields. Each function says one; its body does nothing.
ghost use Rattle.yds_texts.specs.TextLaws.{LinesAreSlices, FieldsAreSlices};

/// Each line of a text is the slice of the text's bytes from the line's start on, and begins beyond
/// the end of the line before.
pub fn lines_are_slices()
    ensures { LinesAreSlices }
{}

/// Each field of a line is the slice of the line's bytes from the field's column on, and begins
/// beyond the end of the field before.
pub fn fields_are_slices()
    ensures { FieldsAreSlices }
{}
