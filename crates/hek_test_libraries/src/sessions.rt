//! A debugger's session in which memory may be refused.
use crate::asserts::{holds, is};
use hek_debug_command::{Manner, Sources, debug_session};
use hek_report::{HekFault, ScheduleFile};
use std::alloc::{AllocError, Global};
use std::io;
use std::io::ErrorKind;
use std::process::Abort;
use std::test::Fail;

const READER_THEN_WRITER: &str = "buckets 1
row 10 100
txn a repeatable
txn b repeatable
a begin
b begin
a read 10
b update 10 200
b finish
b precommit
a finish
a precommit
a release
";

/// No files.
#[derive(Drop)]
struct NoFiles;

impl Sources for NoFiles {
    type File = &'static [u8];

    fn open(&self, _: &str) -> io::Result<&'static [u8]> {
        Err(ErrorKind::NotFound.into())
    }
}

/// As from a pipe.
const PIPED: Manner = Manner {
    prompts: false,
    explains: false,
};

/// What a session answers, the faults, and the status.
fn held(
    rt: &impl Abort,
    alloc: Global,
    text: &str,
    input: &str,
) -> Result<(String, String, u8), AllocError> {
    let file = ScheduleFile::<&[u8]>::Text(Vec::from_slice(alloc, text.as_bytes())?);
    let (mut out, mut faults) = (Vec::new(alloc), Vec::new(alloc));
    let bytes = input.as_bytes();
    let status = match debug_session(alloc, file, bytes, &NoFiles, PIPED, &mut out, &mut faults) {
        Ok(status) => status,
        // `out` is a list, which can't be written where it can't grow.
        Err(fault) => {
            holds(
                rt,
                matches!(fault, HekFault::NoMemory | HekFault::CannotWrite),
            );
            return Err(AllocError);
        }
    };
    let out = String::from_utf8(out).expect(rt, "answers are text");
    let faults = String::from_utf8(faults).expect(rt, "faults are text");
    Ok((out, faults, status))
}

/// The answers to `step 99` twice, `why`, `changes` and `why`.
const ANSWERS: &[&str] = &[
    "at 9 end -> released read 0 writer 2\n",
    "at 9 end -> released read 0 writer 2\n",
    "9 a release -> released read 0 writer 2\n  a was the last reader of version 0, which b writes; b waits for nobody any more\n  version 0 end 8040000000000002 -> C000000000000002\n",
    "9 a release -> released read 0 writer 2\n  version 0 end 8040000000000002 -> C000000000000002 lock readers 0 writer 2 no-more-reads set\n  txn 1 a reads 0 -> none\n  txn 2 b waits 1 -> 0\n",
    "9 a release -> released read 0 writer 2\n  a was the last reader of version 0, which b writes; b waits for nobody any more\n  version 0 end 8040000000000002 -> C000000000000002\n",
];

/// Whether a text has these bytes at a place.
fn has_at(text: &[u8], at: usize, bytes: &[u8]) -> bool {
    at <= text.len() && text[at..].starts_with(bytes)
}

/// A test for runs in which an allocation fails. The answer that wanted it is left out whole, and what is asked next is answered as
/// if it had not been asked.
#[test]
fn an_answer_is_whole_or_none(rt: HostRuntime) -> Result<(), Fail> {
    let input = "step 99\nstep 99\nwhy\nchanges\nwhy\n";
    let Ok((out, faults, status)) = held(&rt, rt.alloc(), READER_THEN_WRITER, input) else {
        return Ok(());
    };
    let bytes = out.as_str().as_bytes();
    let mut at = 0usize;
    let mut left_out = 0u8;
    for answer in ANSWERS {
        if has_at(bytes, at, answer.as_bytes()) {
            at = at.saturating_add(answer.len());
        } else {
            left_out = left_out.saturating_add(1);
        }
    }
    is(&rt, at, bytes.len());
    is(&rt, left_out, status);
    let want = if status == 0 { "" } else { "hek: no memory\n" };
    is(&rt, faults.as_str(), want);
    Ok(())
}
