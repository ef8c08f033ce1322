//! Traces: read as transcripts, and written to sinks that have room and to sinks that have too little.
use crate::asserts::{holds, is};
use hek_asm::{assemble_text, read_trace, write_trace};
use hek_rules::{MemorySink, Reply, Schedule, Time, Transcript, TxnId, VersionId, WriteFault};
use std::alloc::Global;
use std::process::Abort;

/// A reader, and a writer that waits for it.
const STEPS: &str =
    "buckets 1\nrow 10 100\ntxn a repeatable\ntxn b repeatable\na begin\nb begin\na read 10\nb update 10 200\na finish\na precommit\na release\n";

const TRACE: &str =
    "1 a begin -> began 1\n2 b begin -> began 2\n3 a read 10 -> found 100\n4 b update 10 200 -> done\n5 a finish -> ready\n6 a precommit -> precommitted 3\n7 a release -> released read 0 writer 2\n";

fn step_replies() -> [Reply; 7] {
    [
        Reply::Began(Time::new(1)),
        Reply::Began(Time::new(2)),
        Reply::Found(100),
        Reply::Done,
        Reply::Ready,
        Reply::Precommitted(Time::new(3)),
        Reply::ReleasedRead(VersionId::new(0), Some(TxnId::new(2))),
    ]
}

/// The transcript has the rows, the transactions and the steps of the schedule.
fn is_of(rt: &impl Abort, told: &Transcript, schedule: &Schedule) {
    is(rt, told.buckets(), 1);
    is(rt, told.rows(), [(10, 100)].as_slice());
    is(rt, told.txn_count(), 2);
    is(rt, told.events(), schedule.steps());
}

#[test]
fn reads_a_trace(rt: HostRuntime) {
    let schedule = assemble_text(rt.alloc(), STEPS).expect(&rt, "a schedule");
    let told = read_trace(rt.alloc(), &schedule, TRACE).expect(&rt, "a transcript");
    is_of(&rt, &told, &schedule);
    is(&rt, told.replies().len(), 7);
    for (reply, want) in told.replies().iter().zip(step_replies().as_slice()) {
        holds(&rt, reply.same(want));
    }
}

/// The trace, written to a sink with this much room, which takes so many bytes at a time: whether it went out, and what
/// did.
#[tactic(auto, using(hek_asm::proofs::RowLemmas::steps_declared))]
fn sent(
    rt: &impl Abort,
    alloc: Global,
    room: usize,
    piece: usize,
) -> (Result<(), WriteFault>, MemorySink) {
    holds(rt, piece > 0);
    let (schedule, replies) = (
        assemble_text(alloc, STEPS).expect(rt, "a schedule"),
        step_replies(),
    );
    let _ = schedule.buckets();
    holds(rt, schedule.steps().len() == 7);
    let mut sink = MemorySink::new(alloc, room, piece);
    let written = write_trace(&schedule, schedule.steps(), replies.as_slice(), &mut sink);
    (written, sink)
}

#[test]
fn a_trace_goes_out_whole(rt: HostRuntime) {
    let (whole, out) = sent(&rt, rt.alloc(), TRACE.len(), 1 << 16);
    is(&rt, (whole, out.bytes()), (Ok(()), TRACE.as_bytes()));
    let (cut, out) = sent(&rt, rt.alloc(), TRACE.len(), 1);
    is(&rt, (cut, out.bytes()), (Ok(()), TRACE.as_bytes()));
}

// The sink is full in the middle of a line, and at its end.
#[test]
fn a_sink_that_is_full_ends_a_trace(rt: HostRuntime) {
    for room in 0..TRACE.len() {
        let (written, out) = sent(&rt, rt.alloc(), room, 7);
        is(&rt, written, Err(WriteFault::Write));
        holds(&rt, TRACE.as_bytes().starts_with(out.bytes()));
        is(&rt, out.bytes().len(), room);
    }
}
