//! A text, in the room of a caller.
ghost use Rattle.std.specs.Prelude.{◌≡◌, ◌<◌, ◌≤◌, length, IfOk, IfErr};
ghost use Rattle.hek_report.specs.declared.fault.HekFault.TheVariants as hek;
ghost use Rattle.hek_machine_c.specs.Made.{IsIn};

use crate::made::{HekMade, MADE, NO_ROOM};
use hek_report::HekFault;
use std::alloc::Global;

/// Copies a text to the beginning of the room, if it fits.
pub(crate) fn copied(text: &[u8], out: &mut [u8]) -> HekMade
    ensures made { length text.now ≤ length out.old → result ≡ record { length = length text.now; line = 0; status = 0 } }
    ensures text { length text.now ≤ length out.old → IsIn text.now out.old out.new }
    ensures no_room { length out.old < length text.now → result ≡ record { length = length text.now; line = 0; status = 4 } }
    ensures kept { length out.old < length text.now → out.new ≡ out.old }
{
    let length = text.len() as u64;
    if out.len() < text.len() {
        return HekMade {
            length,
            line: 0,
            status: NO_ROOM,
        };
    }
    out[..text.len()].copy_from_slice(text);
    HekMade {
        length,
        line: 0,
        status: MADE,
    }
}

/// The bytes of a text, in memory of their own.
pub(crate) fn owned<'a>(alloc: Global, text: &[u8]) -> Result<Vec<u8>, HekFault<'a>>
    ensures owned { IfOk result (λ bytes. bytes.items ≡ text.now) }
    ensures refused { IfErr result (λ fault. fault ≡ hek.NoMemory) }
{
    let mut bytes = Vec::new(alloc);
    match bytes.extend_from_slice(text) {
        Ok(()) => Ok(bytes),
        Err(_) => Err(HekFault::NoMemory),
    }
}
