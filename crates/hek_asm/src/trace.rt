//! Traces: a line for each event and its reply.
ghost use Rattle.std.specs.Prelude.{◌≡◌, ◌++◌, ◌∷◌, [], false, length, IsTrue, OnOk, is_err};
ghost use Rattle.std.specs.List.{AllByRecursion};
ghost use Rattle.hek_rules.specs.Lines.{spaced};
ghost use Rattle.hek_asm.specs.Canonical.{step_words};
ghost use Rattle.hek_asm.specs.Trace.{NamesDeclared, trace_line, trace};

use crate::piece::{Piece, front_pieces, rest_pieces, step_pieces};
use crate::writing::{appending, put_back, put_pieces, write_pieces};
use hek_rules::{Event, NoMemory, Reply, Schedule, Sink, WriteFault};

/// Appends a step as a trace has it, with a space before each word. After NoMemory a part of it may have been appended.
#[tactic(auto, using(crate::proofs::LineLemmas::spaced_step))]
pub fn put_step(schedule: &Schedule, event: &Event, out: &mut Vec<u8>) -> Result<(), NoMemory>
    requires { NamesDeclared (length schedule.now.txns) event.now }
    ensures { OnOk result (out.new.items ≡ out.old.items ++ spaced (step_words schedule.now event.now)) }
{
    let [name, kind, first, second] = step_pieces(schedule, event);
    put_pieces(
        [Piece::Text(" "), name, kind, first, second].as_slice(),
        out,
    )
}

/// Writes the line of the event that has this number, with its reply. After a fault it is unknown how many bytes went
/// out.
fn write_line<S: Sink>(
    schedule: &Schedule,
    number: u64,
    event: &Event,
    reply: &Reply,
    sink: &mut S,
) -> Result<(), WriteFault>
    requires works { S.failed sink.old ≡ false }
    requires declared { NamesDeclared (length schedule.now.txns) event.now }
    ensures ok { OnOk result (IsTrue (S.tells sink.old) → S.holds sink.new ≡ S.holds sink.old ++ trace_line schedule.now number event.now reply.now) }
    ensures tells { IsTrue (S.tells sink.old) → IsTrue (S.tells sink.new) }
    ensures fails { S.failed sink.new ≡ is_err result }
{
    write_pieces(front_pieces(schedule, number, event).as_slice(), sink)?;
    write_pieces(rest_pieces(reply).as_slice(), sink)
}

/// Appends the line of the event that has this number, with its reply. After NoMemory a part of it may have been
/// appended.
pub fn put_line(
    schedule: &Schedule,
    number: u64,
    event: &Event,
    reply: &Reply,
    out: &mut Vec<u8>,
) -> Result<(), NoMemory>
    requires { NamesDeclared (length schedule.now.txns) event.now }
    ensures { OnOk result (out.new.items ≡ out.old.items ++ trace_line schedule.now number event.now reply.now) }
{
    let mut sink = appending(out);
    let written = write_line(schedule, number, event, reply, &mut sink);
    put_back(sink, written, out)
}

/// Writes the trace of events with their replies, a line each. After a fault it is unknown how many bytes went out.
pub fn write_trace<S: Sink>(
    schedule: &Schedule,
    events: &[Event],
    replies: &[Reply],
    sink: &mut S,
) -> Result<(), WriteFault>
    requires works { S.failed sink.old ≡ false }
    requires declared { AllByRecursion (NamesDeclared (length schedule.now.txns)) events.now }
    requires paired { length replies.now ≡ length events.now }
    ensures ok { OnOk result (IsTrue (S.tells sink.old) → S.holds sink.new ≡ S.holds sink.old ++ trace schedule.now events.now replies.now) }
    ensures tells { IsTrue (S.tells sink.old) → IsTrue (S.tells sink.new) }
    ensures fails { S.failed sink.new ≡ is_err result }
{
    for place in 0..events.len() {
        write_line(
            schedule,
            place as u64 + 1,
            &events[place],
            &replies[place],
            sink,
        )?;
    }
    Ok(())
}

/// Appends the trace of events with their replies, a line each. After NoMemory a part of it may have been appended.
pub fn put_trace(
    schedule: &Schedule,
    events: &[Event],
    replies: &[Reply],
    out: &mut Vec<u8>,
) -> Result<(), NoMemory>
    requires declared { AllByRecursion (NamesDeclared (length schedule.now.txns)) events.now }
    requires paired { length replies.now ≡ length events.now }
    ensures { OnOk result (out.new.items ≡ out.old.items ++ trace schedule.now events.now replies.now) }
{
    let mut sink = appending(out);
    let written = write_trace(schedule, events, replies, &mut sink);
    put_back(sink, written, out)
}
