//! Images whose bytes have no end, and the longest image.
ghost use Rattle.std.specs.Prelude.{◌<◌};

use crate::asserts::{holds, is, is_at};
use hek_asm::assemble_text;
use hek_image::{LoadFault, load_image, write_image};
use hek_rules::{Ending, MemorySink, MemorySource, Schedule};
use std::alloc::Global;
use std::io::Write;
use std::process::Abort;
use std::{io, str};

/// The image of `buckets 4`, `row 10 100`, `txn a serializable`, `a read 10`.
const IMAGE: [u8; 62] =
    *b"\x48\x4B\x53\x43\x00\x02\x00\x00\x00\x04\x00\x00\x00\x01\x00\x00\x00\x01\x00\x00\x00\x01\x00\x00\x00\x00\x00\x00\x00\x0A\x00\x00\x00\x00\x00\x00\x00\x64\x01\x01\x61\x02\x00\x00\x00\x01\x00\x00\x00\x00\x00\x00\x00\x0A\x00\x00\x00\x00\x00\x00\x00\x00";

/// The image with no event at its one step.
const NO_EVENT: [u8; 62] =
    *b"\x48\x4B\x53\x43\x00\x02\x00\x00\x00\x04\x00\x00\x00\x01\x00\x00\x00\x01\x00\x00\x00\x01\x00\x00\x00\x00\x00\x00\x00\x0A\x00\x00\x00\x00\x00\x00\x00\x64\x01\x01\x61\x00\x00\x00\x00\x01\x00\x00\x00\x00\x00\x00\x00\x0A\x00\x00\x00\x00\x00\x00\x00\x00";

/// The front of an image with endless zeros after it, the most bytes that are taken, and the fault.
const ENDLESS: &[(&[u8], u64, LoadFault)] = &[
    (b"\x47", 32, LoadFault::BadMagic),
    (&[], 32, LoadFault::BadMagic),
    (&IMAGE, 63, LoadFault::Trailing),
    (b"HKSC\x00\x02", 32, LoadFault::BadField(6)),
    (&NO_EVENT, 62, LoadFault::BadField(41)),
];

fn assert_takes(rt: &impl Abort, alloc: Global, piece: usize, row: &(&[u8], u64, LoadFault))
    requires { 0 < piece }
{
    let (bytes, taken, fault) = *row;
    let mut source = MemorySource::new(bytes, piece, Ending::Endless);
    is_at(rt, piece, load_image(alloc, &mut source).err(), Some(fault));
    holds(rt, source.given() <= taken);
}

/// A source without end is read no further than the fault wants.
#[test]
fn stops_at_a_fault(rt: HostRuntime) {
    for row in ENDLESS {
        for piece in [1usize, 3, 7, 100_000] {
            assert_takes(&rt, rt.alloc(), piece.max(1), row);
        }
    }
}

fn put_longest(text: &mut Vec<u8>) -> io::Result<()> {
    writeln!(text, "buckets 1024")?;
    for key in 0..65_536u64 {
        writeln!(text, "row {key} {}", u64::MAX - key)?;
    }
    for number in 1_000..2_024u64 {
        writeln!(text, "txn transaction_with_a_long_name{number} repeatable")?;
    }
    for place in 0..1_000_000u64 {
        writeln!(
            text,
            "transaction_with_a_long_name2023 update {place} {place}"
        )?;
    }
    Ok(())
}

/// The longest schedule.
fn longest(rt: &impl Abort, alloc: Global) -> Schedule {
    let mut text = Vec::new(alloc);
    put_longest(&mut text).expect(rt, "memory");
    let text = str::from_utf8(text.as_slice()).expect(rt, "a text");
    assemble_text(alloc, text).expect(rt, "a schedule")
}

#[test]
fn loads_the_longest_image(rt: HostRuntime) {
    let schedule = longest(&rt, rt.alloc());
    let mut sink = MemorySink::new(rt.alloc(), 22_083_414, 100_000);
    is(&rt, write_image(&schedule, &mut sink), Ok(()));
    is(&rt, sink.bytes().len(), 22_083_414);
    for piece in [100usize, 100_000] {
        let mut source = MemorySource::new(sink.bytes(), piece, Ending::Ends);
        let loaded = load_image(rt.alloc(), &mut source).expect(&rt, "a schedule");
        holds(&rt, loaded.same(&schedule));
    }
}
