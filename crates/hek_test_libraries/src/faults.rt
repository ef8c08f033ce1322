//! The line of each fault.
use crate::asserts::is;
use hek_asm::{AsmFault, AsmKind, TraceFault};
use hek_image::LoadFault;
use hek_report::{HekFault, report};
use std::alloc::Global;
use std::fmt::Display;
use std::process::Abort;

/// Each fault of a command, its status, and its line.
const FAULTS: &[(HekFault<'static>, u8, &str)] = &[
    (HekFault::BadArgument, 2, "hek: bad argument\n"),
    (HekFault::NotAWord, 1, "hek: not a word\n"),
    (HekFault::NoReader, 1, "hek: no reader\n"),
    (HekFault::BadWaits, 1, "hek: bad waits\n"),
    (
        HekFault::Line {
            line: 2,
            kind: AsmKind::UnknownName,
        },
        1,
        "hek: line 2: 4 UnknownName\n",
    ),
    (
        HekFault::Image(LoadFault::BadMagic),
        1,
        "hek: image: 1 BadMagic\n",
    ),
    (
        HekFault::Image(LoadFault::BadVersion),
        1,
        "hek: image: 2 BadVersion\n",
    ),
    (
        HekFault::Image(LoadFault::Short),
        1,
        "hek: image: 3 Short\n",
    ),
    (
        HekFault::Image(LoadFault::BadField(54)),
        1,
        "hek: image: 4 BadField at 54\n",
    ),
    (
        HekFault::Image(LoadFault::Trailing),
        1,
        "hek: image: 5 Trailing\n",
    ),
    (HekFault::Image(LoadFault::Read), 1, "hek: image: 6 Read\n"),
    (HekFault::TraceLine(2), 1, "hek: trace line 2\n"),
    (HekFault::CommandLine(2), 1, "hek: command line 2\n"),
    (
        HekFault::Wanted {
            line: 2,
            column: 9,
            wanted: "a number below 2^64",
        },
        1,
        "hek: line 2, column 9: a number below 2^64 is wanted\n",
    ),
    (HekFault::NoWorker, 1, "hek: threads: no worker\n"),
    (HekFault::Mismatch(2), 1, "hek: threads: mismatch 2\n"),
    (HekFault::NotText, 1, "hek: not text\n"),
    (HekFault::CannotRead("x.hek"), 1, "hek: cannot read x.hek\n"),
    (HekFault::CannotWrite, 1, "hek: cannot write\n"),
    (HekFault::NoMemory, 1, "hek: no memory\n"),
];

fn assert_reports(rt: &impl Abort, alloc: Global, fault: HekFault<'_>, status: u8, line: &str) {
    let mut faults = Vec::new(alloc);
    is(rt, report(fault, &mut faults), status);
    is(rt, faults.as_slice(), line.as_bytes());
}

#[test]
fn reports_each_fault(rt: HostRuntime) {
    for &(fault, status, line) in FAULTS {
        assert_reports(&rt, rt.alloc(), fault, status, line);
    }
    let fault = HekFault::from(LoadFault::NoMemory);
    assert_reports(&rt, rt.alloc(), fault, 1, "hek: no memory\n");
}

fn assert_prints<F: Display>(rt: &impl Abort, alloc: Global, fault: &F, line: &str) {
    let text = format!(in alloc; "{fault}").expect(rt, "memory");
    is(rt, text.as_str(), line);
}

#[test]
fn prints_faults_of_libraries(rt: HostRuntime) {
    let text = AsmFault::At {
        line: 2,
        kind: AsmKind::UnknownName,
    };
    assert_prints(&rt, rt.alloc(), &text, "line 2: 4 UnknownName");
    assert_prints(&rt, rt.alloc(), &TraceFault::Line(2), "trace line 2");
    assert_prints(
        &rt,
        rt.alloc(),
        &LoadFault::BadField(54),
        "4 BadField at 54",
    );
}
