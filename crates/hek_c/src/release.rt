//! The release of a read lock, with the waits of the writer.
ghost use Rattle.std.specs.Prelude.{◌≡◌, ◌<◌};
ghost use Rattle.hek_rules.specs.Words.{end_number, readers_of, without_reader, waits_left, IsLastUnderWriter};
ghost use Rattle.hek_rules.specs.declared.word.EndRecord.{EndRecord};
ghost use Rattle.hek_changes.specs.Changes.{IsEndOf};
ghost use Rattle.hek_c.specs.Numbers.{NoEnd};

use hek_word::{EndWord, ReleaseFault, release_word};

const RELEASED: u32 = 0;

const NO_READER: u32 = 1;

const BAD_WAITS: u32 = 2;

const NO_WORD: u32 = 3;

/// What a release answers: the new word and the new number of waits with status 0, otherwise those that it was given.
#[repr(C)]
#[derive(Clone, Copy)]
pub struct HekRelease {
    pub word: u64,
    pub waits: u64,
    pub status: u32,
}

/// Gives up one read lock of an End word whose writer waits for `waits` others. Status 0: released; 1: the word has no
/// reader; 2: the last reader would go, and `waits` is 0 for the writer; 3: the number is no End word. (Section 4 of
/// the paper: releasing read locks.)
#[unsafe(no_mangle)]
pub extern "C" fn hek_release(number: u64, waits: u64) -> HekRelease
    ensures released { (r : EndRecord) → IsEndOf r number → 0 < readers_of r → (IsLastUnderWriter r → 0 < waits) → result ≡ record { word = end_number (without_reader r); waits = waits_left r waits; status = 0 } }
    ensures no_reader { (r : EndRecord) → IsEndOf r number → readers_of r ≡ 0 → result ≡ record { word = number; waits = waits; status = 1 } }
    ensures bad_waits { (r : EndRecord) → IsEndOf r number → IsLastUnderWriter r → waits ≡ 0 → result ≡ record { word = number; waits = waits; status = 2 } }
    ensures no_word { NoEnd number → result ≡ record { word = number; waits = waits; status = 3 } }
{
    let Some(word) = EndWord::read(number) else {
        return kept(number, waits, NO_WORD);
    };
    match release_word(word, waits) {
        Ok((left, waits)) => HekRelease {
            word: left.bits(),
            waits,
            status: RELEASED,
        },
        Err(ReleaseFault::NoReader) => kept(number, waits, NO_READER),
        Err(ReleaseFault::BadWaits) => kept(number, waits, BAD_WAITS),
    }
}

fn kept(word: u64, waits: u64, status: u32) -> HekRelease
    ensures { result ≡ record { word = word; waits = waits; status = status } }
{
    HekRelease {
        word,
        waits,
        status,
    }
}
