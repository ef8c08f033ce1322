//! The lines of an input.
ghost use Rattle.std.specs.Prelude.{◌≡◌, ◌≢◌, ◌≤◌, ◌<◌, ◌-◌, ◌^◌, ℕ, length, take, All, OnOk, IfErr, IfOk, IfSome, MatchResult, vec_len, false};
ghost use Rattle.std.specs.Io.BufRead.{take_through, DropsThrough};
ghost use Rattle.hek_history_log.specs.Ends.{IsEnd};
ghost use Rattle.hek_history_log.specs.Parts.{TakesPart};

use crate::fault::LogFault;
use std::io::{BufRead, ErrorKind};

/// The most bytes that a line has.
const MOST_BYTES: u64 = 1 << 24;

/// Reads the next line in place of the last one; nothing at the end.
pub(crate) fn read_line<B: BufRead>(
    input: &mut B,
    number: u64,
    bytes: &mut Vec<u8>,
) -> Result<(), LogFault>
    ensures bytes { OnOk result (IfSome (B.remaining input.old)
        (λ xs. bytes.new.items ≡ take_through 10 xs)) }
    ensures rest { OnOk result (DropsThrough (B.remaining input.old) (B.remaining input.new) 10) }
    ensures fails { IfErr result (λ fault. IfSome (B.remaining input.old)
        (λ xs. length (take_through 10 xs) ≤ 2 ^ 24 → IsEnd fault)) }
{
    bytes.clear();
    for _ in 0..u64::MAX {
        let is_whole = take_part(input, bytes)?;
        if bytes.len() as u64 > MOST_BYTES {
            return Err(LogFault::Long { line: number });
        }
        if is_whole {
            return Ok(());
        }
    }
    Err(LogFault::CannotRead)
}

/// Appends what the input holds ready of the line, at most one byte beyond the most. Answers whether the line is whole: it
/// ends there, or the input does.
fn take_part<B: BufRead>(input: &mut B, bytes: &mut Vec<u8>) -> Result<bool, LogFault>
    requires { vec_len bytes.old ≤ 2 ^ 24 }
    ensures { MatchResult result
        (λ is_whole. TakesPart (B.remaining input.old) (B.remaining input.new) bytes.old.items bytes.new.items is_whole)
        IsEnd }
{
    let room = (MOST_BYTES + 1 - bytes.len() as u64) as usize;
    let ready = match input.fill_buf() {
        Ok(ready) => ready,
        Err(error) => return unless_interrupted(error.kind()),
    };
    let most = ready.len().min(room);
    let end = len_through_line(&ready[..most]);
    bytes.extend_from_slice(&ready[..end])?;
    let is_whole = end == 0 || ready[end - 1] == b'\n';
    input.consume(end);
    Ok(is_whole)
}

/// Whether a failed read is tried anew, as `false`: only if it was interrupted.
fn unless_interrupted(kind: ErrorKind) -> Result<bool, LogFault>
    ensures { MatchResult result (λ is_whole. is_whole ≡ false) IsEnd }
{
    match kind {
        ErrorKind::Interrupted => Ok(false),
        ErrorKind::OutOfMemory => Err(LogFault::NoMemory),
        _ => Err(LogFault::CannotRead),
    }
}

/// How many bytes there are up to and with the first line feed, or all.
fn len_through_line(bytes: &[u8]) -> usize
    ensures bound { result ≤ length bytes.now }
    ensures some { 0 < length bytes.now → 0 < result }
    ensures before { All (λ x. x ≢ 10) (take (result - 1) bytes.now) }
{
    let mut place = 0;
    while place < bytes.len() {
        if bytes[place] == b'\n' {
            return place + 1;
        }
        place += 1;
    }
    place
}
