//! The command `asm`: a schedule's text as an image.
ghost use Rattle.std.specs.Prelude.{◌≡◌, false, IsTrue, MatchResult, OnOk};
ghost use Rattle.hek_convert_command.specs.Converted.{Assembles, AsmFails};

use hek_image::write_image;
use hek_report::{HekFault, schedule_of_text};
use hek_rules::Sink;
use std::alloc::Global;

/// Writes the image of the schedule that a text describes, straight to a sink. Nothing is written before the whole text is
/// known to describe one; after CannotWrite it is unknown how many bytes went out. Answers the exit status.
pub fn asm_command<'a, S: Sink>(alloc: Global, text: &[u8], out: &mut S) -> Result<u8, HekFault<'a>>
    requires { S.failed out.old ≡ false }
    ensures written { MatchResult result (λ status. (status ≡ 0) × Assembles S.holds S.tells text.now out.old out.new) (AsmFails (S.failed out.new) text.now) }
    ensures tells { IsTrue (S.tells out.old) → IsTrue (S.tells out.new) }
    ensures works { OnOk result (S.failed out.new ≡ false) }
{
    let schedule = schedule_of_text(alloc, text)?;
    match write_image(&schedule, out) {
        Ok(()) => Ok(0),
        Err(_) => Err(HekFault::CannotWrite),
    }
}
