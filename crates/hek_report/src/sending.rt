//! Lines that are gathered, so that a writer gets many at a time.
ghost use Rattle.std.specs.Prelude.{◌≡◌, [], OnOk, IfErr};
ghost use Rattle.std.specs.Io.KnownBytes.{Appends};
ghost use Rattle.hek_report.specs.Files.{IsStop};
ghost use Rattle.hek_report.specs.Sent.{Passes};

use crate::fault::HekFault;
use crate::lines::Lines;
use std::io::Write;

/// How many bytes of lines go out at once.
const MANY: usize = 1 << 16;

/// Writes the lines, and empties the list.
pub fn send<'a, W: Write>(lines: &mut Vec<u8>, out: &mut W) -> Result<(), HekFault<'a>>
    ensures written { OnOk result (Appends (W.contents out.old) (W.contents out.new) lines.old.items) }
    ensures none { OnOk result (lines.new.items ≡ []) }
    ensures stops { IfErr result IsStop }
{
    if out.write_all(lines.as_slice()).is_err() {
        return Err(HekFault::CannotWrite);
    }
    lines.clear();
    Ok(())
}

/// Writes the lines once they have many bytes; until then does nothing.
pub fn send_if_many<'a, W: Write>(lines: &mut Vec<u8>, out: &mut W) -> Result<(), HekFault<'a>>
    ensures kept { OnOk result (Passes (W.contents out.old) lines.old.items (W.contents out.new) lines.new.items) }
    ensures stops { IfErr result IsStop }
{
    if lines.len() < MANY {
        return Ok(());
    }
    send(lines, out)
}

/// Writes the lines of objects, and takes them out.
pub fn send_lines<'a, W: Write>(lines: &mut Lines, out: &mut W) -> Result<(), HekFault<'a>>
    ensures { IfErr result IsStop }
{
    send(&mut lines.take()?, out)
}
