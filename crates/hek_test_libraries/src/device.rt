use crate::asserts::is;
use hek_rules::{
    Ending, FromRead, FromWrite, MemorySink, MemorySource, Sink, Source, WriteFault, put_all,
};
use std::io;
use std::io::{ErrorKind, Read, Write};

// A reader and writer that always answers an error of this kind.
#[derive(Drop)]
struct Broken(ErrorKind);

impl Read for Broken {
    fn read(&mut self, _buf: &mut [u8]) -> io::Result<usize> {
        Err(io::Error::from(self.0))
    }
}

impl Write for Broken {
    fn write(&mut self, _buf: &[u8]) -> io::Result<usize> {
        Err(io::Error::from(self.0))
    }

    fn flush(&mut self) -> io::Result<()> {
        Ok(())
    }
}

#[test]
fn takes_from_a_reader(rt: HostRuntime) {
    let mut buffer = [0u8; 3];
    let mut source = FromRead::new(b"HKSC".as_slice());
    is(&rt, source.take(&mut buffer).expect(&rt, "the front"), 3);
    is(&rt, buffer, *b"HKS");
    is(&rt, source.take(&mut buffer).expect(&rt, "the rest"), 1);
    is(&rt, buffer[0], b'C');
    is(&rt, source.take(&mut buffer).expect(&rt, "the end"), 0);
    assert!(rt; source.into_inner().is_empty());
    // an interrupted read is an error as any other
    for kind in [ErrorKind::Other, ErrorKind::Interrupted] {
        is(&rt, FromRead::new(Broken(kind)).take(&mut buffer), None);
    }
}

#[test]
fn puts_to_a_writer(rt: HostRuntime) {
    let mut sink = FromWrite::new(Vec::new(rt.alloc()));
    is(&rt, sink.put(b"HK").expect(&rt, "two bytes"), 2);
    is(&rt, sink.put(b"").expect(&rt, "no byte"), 0);
    is(&rt, sink.into_inner().as_slice(), b"HK".as_slice());
    for kind in [ErrorKind::Other, ErrorKind::Interrupted] {
        is(&rt, FromWrite::new(Broken(kind)).put(b"HK"), None);
    }
    // a writer that takes no byte of some
    let mut none = [0u8; 0];
    is(&rt, FromWrite::new(none.as_mut_slice()).put(b"HK"), None);
}

#[test]
fn ends_as_asked(rt: HostRuntime) {
    for (ending, last, given) in [
        (Ending::Ends, Some(0), 4),
        (Ending::Fails, None, 4),
        (Ending::Endless, Some(3), 7),
    ] {
        let mut buffer = [7u8; 8];
        let mut source = MemorySource::new(b"HKSC", 3, ending);
        is(&rt, source.take(&mut buffer).expect(&rt, "the front"), 3);
        is(&rt, buffer, *b"HKS\x07\x07\x07\x07\x07");
        is(&rt, source.take(&mut buffer).expect(&rt, "the rest"), 1);
        is(&rt, source.take(&mut buffer), last);
        is(&rt, source.given(), given);
    }
}

#[test]
fn writes_as_far_as_room_is(rt: HostRuntime) {
    let mut sink = MemorySink::new(rt.alloc(), 5, 2);
    is(&rt, put_all(&mut sink, b"HKSC!"), Ok(()));
    is(&rt, sink.bytes(), b"HKSC!".as_slice());
    let mut short = MemorySink::new(rt.alloc(), 4, 2);
    is(&rt, put_all(&mut short, b"HKSC!"), Err(WriteFault::Write));
    is(&rt, short.bytes(), b"HKSC".as_slice());
}
