//! Laws of canonical texts and of traces.
ghost use Rattle.hek_asm.specs.Laws.{CanonicalIsExact};
ghost use Rattle.hek_asm.specs.Reading.{TracesAreExact};

/// The canonical text of a schedule is read as that schedule. No other text without comments, empty lines, extra blanks
/// and leading zeros is read as it.
pub fn canonical_text_is_exact()
    ensures { CanonicalIsExact }
{}

/// The trace of a transcript is read as that transcript and as no other, and has no line at fault. A text has at most
/// one first line at fault.
pub fn traces_are_exact()
    ensures { TracesAreExact }
{}
