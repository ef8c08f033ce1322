//! The release of a read lock.
ghost use Rattle.std.specs.Prelude.{◌≡◌, ◌↔◌, IfOk, IsErrOf};
ghost use Rattle.hek_rules.specs.Words.{readers_of, without_reader, waits_left, IsLastUnderWriter};

use crate::EndWord;
use hek_rules::Dropped;
use thiserror::Error;

/// Why a read lock cannot be released.
#[derive(Clone, Copy, Debug, PartialEq, Eq, Error)]
pub enum ReleaseFault {
    /// The word has no reader.
    #[error("no reader")]
    NoReader,
    /// The last reader would go under a writer whose number of waits is 0.
    #[error("bad waits")]
    BadWaits,
}

/// Gives up one read lock of a word whose writer waits for `waits` things. The answer is the new word and the writer's
/// new number of waits: one less if the last reader goes under a writer, which then takes no more readers. (Section 4
/// of the paper: releasing read locks.)
pub fn release_word(word: EndWord, waits: u64) -> Result<(EndWord, u64), ReleaseFault>
    ensures word { IfOk result (λ r. r.0 ≡ without_reader word) }
    ensures waits { IfOk result (λ r. r.1 ≡ waits_left word waits) }
    ensures no_reader { IsErrOf result ReleaseFault.NoReader ↔ (readers_of word ≡ 0) }
    ensures bad_waits { IsErrOf result ReleaseFault.BadWaits ↔ (IsLastUnderWriter word × (waits ≡ 0)) }
{
    if word.readers() == 0 {
        return Err(ReleaseFault::NoReader);
    }
    match word.drop_reader() {
        (left, Dropped::Last(_)) => {
            if waits == 0 {
                return Err(ReleaseFault::BadWaits);
            }
            Ok((left, waits - 1))
        }
        (left, _) => Ok((left, waits)),
    }
}
