//! The calls, as a program in C makes them: texts that they make, and each status but that of memory.
use crate::made::HekMade;
use crate::run::hek_run;
use crate::state::hek_state;
use std::process::Abort;

const TEXT: &[u8] = b"buckets 1\nrow 10 100\ntxn a snapshot\na begin\na read 10\n";

const TRACE: &[u8] = b"1 a begin -> began 1\n2 a read 10 -> found 100\n";

const STATE: &[u8] =
    b"1 a begin -> began 1\nclock 2\nversion 0: key 10 value 100; 0000000000000000 begin time 0; 7FFFFFFFFFFFFFFF end infinity\ntxn 1 a: snapshot; active; begin 1; end none; waits 0; commits 0; no-more-waits clear; abort-now clear; reads none; writes none; buckets none; waiting none; dependents none\n";

/// The call answered this length, line and status, and made this text where it made one.
fn made(rt: &impl Abort, made: HekMade, wanted: (u64, u64, u32), out: &[u8], text: &[u8]) {
    assert!(rt;
        (made.length, made.line, made.status) == wanted,
        "another answer"
    );
    assert!(rt; out.starts_with(text), "another text");
}

#[test]
fn texts_are_made(rt: HostRuntime) {
    let mut out = [0u8; 512];
    let run = hek_run(rt.alloc(), TEXT, &mut out);
    made(&rt, run, (TRACE.len() as u64, 0, 0), &out, TRACE);
    let mut out = [0u8; 512];
    let state = hek_state(rt.alloc(), TEXT, 1, &mut out);
    made(&rt, state, (STATE.len() as u64, 0, 0), &out, STATE);
}

#[test]
fn nothing_is_written_behind_a_text(rt: HostRuntime) {
    let mut out = [7u8; 512];
    let state = hek_state(rt.alloc(), TEXT, 1, &mut out);
    assert!(rt; state.status == 0, "no text");
    for byte in out.iter().skip(STATE.len()) {
        assert!(rt; *byte == 7, "a byte behind the text");
    }
}

#[test]
fn statuses_say_why_there_is_no_text(rt: HostRuntime) {
    let mut out = [0u8; 512];
    let line = hek_run(rt.alloc(), b"buckets 1\ntxn a high\n", &mut out);
    made(&rt, line, (0, 2, 1), &out, &[0]);
    let bytes = hek_state(rt.alloc(), b"\xFF", 1, &mut out);
    made(&rt, bytes, (0, 0, 2), &out, &[0]);
    let mut small = [0u8; 4];
    let room = hek_run(rt.alloc(), TEXT, &mut small);
    made(&rt, room, (TRACE.len() as u64, 0, 4), &small, &[0]);
}
