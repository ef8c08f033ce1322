//! Transcripts that no trace says: of transactions that nobody declared, and the replies of the serial order at each place.
use crate::asserts::{holds, is, is_at};
use hek_asm::{assemble_text, put_reply, read_trace};
use hek_rules::{Event, Reply, Schedule, Time, Transcript, TxnId, Verdict};
use hek_serial::{check, serial_reply};
use std::alloc::Global;
use std::process::Abort;

fn schedule(rt: &impl Abort, alloc: Global) -> Schedule {
    let text =
        "buckets 2\nrow 10 100\nrow 11 110\nrow 12 120\ntxn a serializable\ntxn b repeatable\ntxn c serializable\n";
    assemble_text(alloc, text).expect(rt, "a schedule")
}

/// b ends before a, whose requests were answered as if b had not run. c does not end.
const TRACE: &str = "1 b update 10 200 -> done
2 b delete 12 -> done
3 a read 10 -> found 100
4 a insert 11 5 -> done
5 a insert 12 6 -> exists
6 a update 10 300 -> done
7 a read 10 -> found 200
8 a scan 0 -> rows 10=300 12=120
9 a delete 14 -> absent
10 b read 12 -> found 120
11 c read 10 -> found 100
12 detect -> no cycle
13 a precommit -> precommitted 4
14 a commit -> committed
15 b precommit -> precommitted 3
16 b commit -> committed
17 c commit -> committed
";

/// The reply of the serial order to each event that has one.
const SERIAL: [&str; 10] = [
    "done",
    "done",
    "found 200",
    "exists",
    "done",
    "done",
    "found 300",
    "rows 10=300",
    "absent",
    "absent",
];

fn reply_text(rt: &impl Abort, alloc: Global, reply: &Reply) -> Vec<u8> {
    let mut text = Vec::new(alloc);
    is(rt, put_reply(reply, &mut text), Ok(()));
    text
}

#[test]
fn the_serial_order_has_its_replies(rt: HostRuntime) {
    let read = read_trace(rt.alloc(), &schedule(&rt, rt.alloc()), TRACE);
    let transcript = read.expect(&rt, "a transcript");
    for (place, wanted) in SERIAL.iter().enumerate() {
        match serial_reply(rt.alloc(), &transcript, place).expect(&rt, "memory") {
            Some(reply) => is_at(
                &rt,
                place,
                reply_text(&rt, rt.alloc(), &reply).as_slice(),
                wanted.as_bytes(),
            ),
            None => holds(&rt, false),
        }
    }
    for place in 10..17 {
        let reply = serial_reply(rt.alloc(), &transcript, place).expect(&rt, "memory");
        holds(&rt, reply.is_none());
    }
}

/// The first event of an undeclared transaction is at fault.
#[test]
fn undeclared_transactions_are_at_fault(rt: HostRuntime) {
    let opened = Transcript::new(rt.alloc(), &schedule(&rt, rt.alloc()));
    let mut transcript = opened.expect(&rt, "a transcript");
    let (a, stranger) = (TxnId::new(1), TxnId::new(9));
    for (event, reply) in [
        (Event::Begin(a), Reply::Began(Time::new(1))),
        (Event::Begin(stranger), Reply::Began(Time::new(2))),
    ] {
        holds(&rt, transcript.push(event, reply).is_ok());
    }
    is(
        &rt,
        check(rt.alloc(), &transcript),
        Ok(Verdict::NotSerial(2)),
    );
    is(
        &rt,
        transcript.rows(),
        [(10, 100), (11, 110), (12, 120)].as_slice(),
    );
    is(
        &rt,
        (transcript.buckets(), transcript.levels().len()),
        (2, 3),
    );
}
