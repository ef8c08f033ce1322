//! What a call answers.
ghost use Rattle.std.specs.Prelude.{◌≡◌};
ghost use Rattle.hek_machine_c.specs.Made.{status_of, line_of};

use hek_report::HekFault;

/// The status of a call that made a text.
pub(crate) const MADE: u32 = 0;

/// A line of the schedule's text is at fault.
const BAD_LINE: u32 = 1;

/// The schedule's text isn't UTF-8.
const NOT_TEXT: u32 = 2;

const NO_MEMORY: u32 = 3;

/// The text that was made has more bytes than there is room for.
pub(crate) const NO_ROOM: u32 = 4;

/// What a call answers. `status` is 0 if a text was made, of `length` bytes; 1 if line `line` of the schedule's text is at
/// fault; 2 if that isn't UTF-8; 3 if memory ran out; 4 if the text that was made has more bytes than there is room for:
/// `length` says how many. With any status but 0 nothing was written.
#[repr(C)]
#[derive(Clone, Copy)]
pub struct HekMade {
    pub length: u64,
    pub line: u64,
    pub status: u32,
}

/// The answer to a fault.
pub(crate) fn failed(fault: HekFault<'_>) -> HekMade
    ensures { result ≡ record { length = 0; line = line_of fault.entry; status = status_of fault.entry } }
{
    let (line, status) = match fault {
        HekFault::Line { line, .. } => (line, BAD_LINE),
        HekFault::NotText => (0, NOT_TEXT),
        _ => (0, NO_MEMORY),
    };
    HekMade {
        length: 0,
        line,
        status,
    }
}
