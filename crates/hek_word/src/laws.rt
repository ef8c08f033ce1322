//! Laws of the words, as contracts of functions with empty bodies.
ghost use Rattle.hek_word.specs.Canonical.{HaveOneRecord, KeepCanonical};

/// A canonical number is the number of one record.
pub fn canonical_numbers_have_one_record()
    ensures { HaveOneRecord }
{}

/// Each change of a record lock leads from a canonical record to a canonical record.
pub fn rows_keep_canonical()
    ensures { KeepCanonical }
{}
