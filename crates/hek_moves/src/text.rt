//! Moves as lines of text.
use crate::moves::{Kind, Move, Moves};
use crate::say::say;
use crate::sentence::Sentence;
use hek_rules::{NoMemory, Schedule};
use std::alloc::Global;

/// Appends a line for each move but those that a picture doesn't show, as `T1 reads 10: 100`; with `is_told` also its reason, in a line
/// under it. `lines` has the line in the text of each of its steps.
pub fn put_move_lines(
    alloc: Global,
    schedule: &Schedule,
    moves: &Moves,
    lines: &[u64],
    is_told: bool,
    out: &mut Vec<u8>,
) -> Result<(), NoMemory> {
    for made in moves.items() {
        if !is_quiet(made) {
            put_move_line(alloc, schedule, moves, made, lines, is_told, out)?;
        }
    }
    Ok(())
}

/// Whether a move is none of reads, writes, waits and ends.
fn is_quiet(made: &Move) -> bool {
    matches!(made.kind, Kind::Begins | Kind::Precommits(_) | Kind::Idles)
}

/// The line of the text that a move comes from.
pub(crate) fn line_of(made: &Move, lines: &[u64]) -> Option<u64> {
    lines.get(made.source?).copied()
}

fn put_move_line(
    alloc: Global,
    schedule: &Schedule,
    moves: &Moves,
    made: &Move,
    lines: &[u64],
    is_told: bool,
    out: &mut Vec<u8>,
) -> Result<(), NoMemory> {
    let mut said = Vec::new(alloc);
    let mut words = Sentence::new(schedule, &mut said);
    say(made, moves, line_of(made, lines), &mut words);
    words.text.done()?;
    put_plain(said.as_slice(), out)?;
    out.push(b'\n')?;
    if is_told && !made.why.is_empty() {
        out.extend_from_slice(b"  ")?;
        put_plain(made.why.as_slice(), out)?;
        out.push(b'\n')?;
    }
    Ok(())
}

/// Appends words without the braces of names.
fn put_plain(words: &[u8], out: &mut Vec<u8>) -> Result<(), NoMemory> {
    for byte in words {
        if !matches!(*byte, b'{' | b'}') {
            out.push(*byte)?;
        }
    }
    Ok(())
}
