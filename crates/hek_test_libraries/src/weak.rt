//! What a weak contract lets through. That the new word has one reader less is true of a release, but not all of it: of the
//! two releases below, which are both proved to keep this promise, the second forgets NoMoreReadLocks and the waits. The
//! contract of [`release_word`] refuses it.
ghost use Rattle.std.specs.Prelude.{◌≡◌, ◌+◌, IfOk};
ghost use Rattle.hek_rules.specs.Words.{readers_of};

use crate::asserts::is;
use hek_rules::Dropped;
use hek_word::{EndWord, ReleaseFault, release_word};

fn release(word: EndWord, waits: u64) -> Result<(EndWord, u64), ReleaseFault>
    ensures { IfOk result (λ r. readers_of r.0 + 1 ≡ readers_of word) }
{
    release_word(word, waits)
}

fn forgetful_release(word: EndWord, waits: u64) -> Result<(EndWord, u64), ReleaseFault>
    ensures { IfOk result (λ r. readers_of r.0 + 1 ≡ readers_of word) }
{
    if word.readers() == 0 {
        return Err(ReleaseFault::NoReader);
    }
    let (left, dropped) = word.drop_reader();
    match dropped {
        Dropped::Last(writer) => Ok((EndWord::infinity().take_writer(writer), waits)),
        _ => Ok((left, waits)),
    }
}

#[test]
fn a_weak_contract_takes_a_wrong_release(rt: HostRuntime) {
    let last_under_writer = EndWord::read(0x8040_0000_0000_0002).expect(&rt, "a word");
    let (left, waits) = release(last_under_writer, 1).expect(&rt, "a release");
    is(&rt, (left.bits(), waits), (0xC000_0000_0000_0002, 0));
    let (left, waits) = forgetful_release(last_under_writer, 1).expect(&rt, "a release");
    is(&rt, (left.bits(), waits), (0x8000_0000_0000_0002, 1));
}
