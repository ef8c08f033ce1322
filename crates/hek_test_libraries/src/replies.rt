//! Replies as texts, written and read back.
use crate::asserts::{holds, is};
use hek_asm::{assemble_text, put_reply, read_trace, write_reply};
use hek_rules::{
    Cause, Event, Members, MemorySink, Pairs, Refusal, Reply, Time, Transcript, TxnId, VersionId,
    WriteFault,
};
use std::alloc::Global;
use std::process::Abort;

/// One bucket, one row, two transactions: without steps, with `scan` as the first, and with each `begin`. A line of a trace is
/// read another way where it is of the schedule's own step.
const SCHEDULES: &[&str] = &[
    "buckets 1\nrow 10 100\ntxn a repeatable\ntxn b repeatable\n",
    "buckets 1\nrow 10 100\ntxn a repeatable\ntxn b repeatable\nb scan 0\n",
    "buckets 1\nrow 10 100\ntxn a repeatable\ntxn b repeatable\na begin\nb begin\n",
];

fn told(rt: &impl Abort, alloc: Global, schedule: &str, trace: &str) -> Transcript {
    let schedule = assemble_text(alloc, schedule).expect(rt, "a schedule");
    read_trace(alloc, &schedule, trace).expect(rt, "a transcript")
}

/// The reply is written as the text, to a list and to a sink, and to no sink that takes a byte too little.
fn is_written(rt: &impl Abort, alloc: Global, reply: &Reply, text: &str) {
    let mut written = Vec::new(alloc);
    is(rt, put_reply(reply, &mut written), Ok(()));
    is(rt, written.as_slice(), text.as_bytes());
    let mut sink = MemorySink::new(alloc, text.len(), 3);
    is(rt, write_reply(reply, &mut sink), Ok(()));
    is(rt, sink.bytes(), text.as_bytes());
    let mut short = MemorySink::new(alloc, text.len().saturating_sub(1), 3);
    is(rt, write_reply(reply, &mut short), Err(WriteFault::Write));
}

/// A trace of one line has this event and this reply.
fn is_told(rt: &impl Abort, told: &Transcript, event: Event, reply: &Reply) {
    is(rt, told.events(), [event].as_slice());
    holds(rt, told.replies().len() == 1);
    for found in told.replies() {
        holds(rt, found.same(reply));
    }
}

/// The reply is read so, of the schedule's own step and of another.
fn is_read(rt: &impl Abort, alloc: Global, reply: &Reply, text: &str) {
    let line = format!(in alloc; "1 b scan 0 -> {text}\n").expect(rt, "memory");
    for schedule in SCHEDULES {
        let told = told(rt, alloc, schedule, line.as_str());
        is_told(rt, &told, Event::Scan(TxnId::new(2), 0), reply);
    }
}

#[test]
fn writes_and_reads_each_reply(rt: HostRuntime) {
    let (v, b) = (VersionId::new(7), TxnId::new(2));
    for (reply, text) in [
        (Reply::Began(Time::new(1)), "began 1"),
        (Reply::Precommitted(Time::new(3)), "precommitted 3"),
        (Reply::ReleasedRead(v, None), "released read 7"),
        (Reply::ReleasedRead(v, Some(b)), "released read 7 writer 2"),
        (Reply::ReleasedWaiter(b), "released waiter 2"),
        (Reply::StampedBegin(v), "stamped begin 7"),
        (Reply::StampedEnd(v), "stamped end 7"),
        (Reply::Left(v), "left 7"),
        (Reply::Found(u64::MAX), "found 18446744073709551615"),
        (Reply::Absent, "absent"),
        (Reply::Done, "done"),
        (Reply::Exists, "exists"),
        (Reply::Ready, "ready"),
        (Reply::Waiting(2), "waiting 2"),
        (Reply::ReleasedBucket(0), "released bucket 0"),
        (Reply::Nothing, "nothing"),
        (Reply::Committed, "committed"),
        (Reply::WaitingCommits(1), "waiting commits 1"),
        (Reply::Failed, "failed"),
        (Reply::Over, "over"),
        (Reply::NoCycle, "no cycle"),
        (Reply::Aborted(Cause::Cascade), "aborted cascade"),
        (Reply::Aborted(Cause::Conflict), "aborted conflict"),
        (Reply::Aborted(Cause::NoMoreReads), "aborted no-more-reads"),
        (Reply::Aborted(Cause::ReadersFull), "aborted readers-full"),
        (Reply::Aborted(Cause::NoMoreWaits), "aborted no-more-waits"),
        (Reply::Aborted(Cause::Deadlock), "aborted deadlock"),
        (Reply::Aborted(Cause::Asked), "aborted asked"),
        (Reply::Refused(Refusal::UnknownTxn), "refused 1 UnknownTxn"),
        (Reply::Refused(Refusal::NotBegun), "refused 2 NotBegun"),
        (Reply::Refused(Refusal::BegunTwice), "refused 3 BegunTwice"),
        (Reply::Refused(Refusal::Ended), "refused 4 Ended"),
        (Reply::Refused(Refusal::WrongPhase), "refused 5 WrongPhase"),
        (Reply::Refused(Refusal::ClockFull), "refused 6 ClockFull"),
    ] {
        is_written(&rt, rt.alloc(), &reply, text);
        is_read(&rt, rt.alloc(), &reply, text);
    }
}

/// The pairs are written and read.
fn are_listed(rt: &impl Abort, alloc: Global, pairs: &[(u64, u64)], text: &str) {
    let pairs = Vec::from_slice(alloc, pairs).expect(rt, "memory");
    let rows = Reply::Rows(Pairs::new(pairs));
    is_written(rt, alloc, &rows, text);
    is_read(rt, alloc, &rows, text);
}

fn victim(rt: &impl Abort, alloc: Global) -> Reply {
    let cycle = Vec::from_slice(alloc, &[TxnId::new(2), TxnId::new(1)]).expect(rt, "memory");
    let cycle = Box::new(alloc, cycle).expect(rt, "memory");
    Reply::Victim(TxnId::new(2), Members::new(cycle))
}

#[test]
fn writes_and_reads_the_lists_of_replies(rt: HostRuntime) {
    are_listed(&rt, rt.alloc(), &[], "rows");
    are_listed(
        &rt,
        rt.alloc(),
        &[(10, 100), (12, 120)],
        "rows 10=100 12=120",
    );
    let victim = victim(&rt, rt.alloc());
    is_written(&rt, rt.alloc(), &victim, "victim 2 cycle 2 1");
    for schedule in SCHEDULES {
        let told = told(
            &rt,
            rt.alloc(),
            schedule,
            "1 detect -> victim 2 cycle 2 1\n",
        );
        is_told(&rt, &told, Event::Detect, &victim);
    }
}

#[test]
fn reads_a_trace_of_nothing(rt: HostRuntime) {
    for schedule in SCHEDULES {
        let told = told(&rt, rt.alloc(), schedule, "");
        holds(&rt, told.events().is_empty());
        is(&rt, told.row_count(), 1);
    }
}
