//! The bytes of a source, piece by piece.
ghost use Rattle.std.specs.Prelude.{◌≡◌, ◌<◌, ◌≤◌, ◌++◌, [], ◌⊎◌, ◌↔◌, take, length, false, IsTrue, OnErr, IfOk, IfErr, Err};
ghost use Rattle.hek_image.specs.Gives.{AnswerFits};
ghost use Rattle.hek_image.specs.declared.fault.LoadFault.TheVariants as load;

use crate::fault::LoadFault;
use hek_rules::Source;

/// How many bytes of a source are held at most: as many as the longest name has.
pub(crate) const ROOM: usize = 32;

// Whether the fault is that the bytes end inside a field.
pub(crate) fn is_short(fault: LoadFault) -> bool
    ensures { IsTrue result ↔ (fault ≡ load.Short) }
{
    matches!(fault, LoadFault::Short)
}

// Takes bytes of the source once, after those in the buffer, up to `size` in all. Answers how many are held then.
pub(crate) fn take_more<S: Source>(
    source: &mut S,
    buffer: &mut [u8],
    held: usize,
    size: usize,
) -> Result<usize, LoadFault>
    requires works { S.failed source.old ≡ false }
    requires room { held < size }
    requires size { size ≤ length buffer.old }
    ensures moves { IfOk result (λ n. (held < n) × (n ≤ size)) }
    ensures gives { IfOk result (λ n. IsTrue (S.tells source.old) → take held buffer.old ++ S.left source.old ≡ take n buffer.new ++ S.left source.new) }
    ensures nothing { OnErr result (IsTrue (S.tells source.old) → S.left source.old ≡ S.left source.new) }
    ensures end { result ≡ Err load.Short → IsTrue (S.tells source.old) → S.left source.new ≡ [] }
    ensures fault { IfErr result (λ e. (e ≡ load.Short) ⊎ (e ≡ load.Read)) }
    ensures tells { IsTrue (S.tells source.old) → IsTrue (S.tells source.new) }
    ensures fails { AnswerFits result (S.failed source.new) }
{
    let (room, _) = buffer.split_at_mut(size);
    let (_, room) = room.split_at_mut(held);
    match source.take(room) {
        Some(0) => Err(LoadFault::Short),
        Some(count) => Ok(held + count),
        None => Err(LoadFault::Read),
    }
}
