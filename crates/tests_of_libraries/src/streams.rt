//! Sources and sinks in memory and over std's readers and writers, with faults in mid-stream.
ghost use Rattle.std.specs.Prelude.{◌≡◌, IfOk};

use kbytes::{Bytes, List, NoMemory};
use outside::{Failed, MemSink, MemSource, Sink, Source, StdSink, StdSource};
use std::alloc::Global;
use std::test::*;

/// The calls of these numbers fail.
pub(crate) fn failing(alloc: Global, numbers: &[u64]) -> Result<List<u64>, NoMemory> {
    let mut list = List::new(alloc);
    for number in numbers {
        list.push(*number)?;
    }
    Ok(list)
}

fn source(alloc: Global) -> Result<MemSource, NoMemory> {
    let mut bytes = Bytes::new(alloc);
    bytes.extend(b"hello")?;
    Ok(MemSource::new(bytes, failing(alloc, &[1, 4])?))
}

#[test]
fn a_source_in_memory_gives_its_bytes_and_fails_where_planned(rt: HostRuntime) {
    let mut source = source(rt.alloc()).expect(&rt, "memory");
    let mut into = [0; 3];
    for want in [Ok(3), Err(Failed), Ok(2), Ok(0), Err(Failed), Ok(0)] {
        assert!(rt; source.read(&mut into) == want);
    }
    assert!(rt; into == *b"lol");
}

// What becomes of each write, of which the second is to fail, where there is room for 5 bytes.
const WRITES: &[(&[u8], Result<usize, Failed>)] = &[
    (b"hel", Ok(3)),
    (b"lo", Err(Failed)),
    (b"lo!", Ok(2)),
    (b"", Ok(0)),
    (b"!", Err(Failed)),
];

fn sink(alloc: Global) -> Result<MemSink, NoMemory> {
    MemSink::new(alloc, 5, failing(alloc, &[1])?)
}

#[test]
fn a_sink_in_memory_takes_what_fits_and_fails_where_planned(rt: HostRuntime) {
    let mut sink = sink(rt.alloc()).expect(&rt, "memory");
    for (part, want) in WRITES {
        assert!(rt; sink.write(part) == *want);
    }
    assert!(rt; sink.bytes() == b"hello".as_slice());
}

// A reader and a writer that fail at once, and then give and take nothing.
#[derive(Drop)]
struct Broken {
    has_failed: bool,
}

impl Broken {
    fn answer(&mut self) -> std::io::Result<usize>
        ensures { IfOk result (λ n. n ≡ 0) }
    {
        if self.has_failed {
            return Ok(0);
        }
        self.has_failed = true;
        Err(std::io::Error::from(std::io::ErrorKind::Other))
    }
}

impl std::io::Read for Broken {
    fn read(&mut self, _into: &mut [u8]) -> std::io::Result<usize> {
        self.answer()
    }
}

impl std::io::Write for Broken {
    fn write(&mut self, _part: &[u8]) -> std::io::Result<usize> {
        self.answer()
    }

    fn flush(&mut self) -> std::io::Result<()> {
        Ok(())
    }
}

#[test]
fn a_source_over_a_reader_gives_its_bytes(rt: HostRuntime) {
    let text: &[u8] = b"hello";
    let mut source = StdSource::new(text);
    let mut into = [0; 3];
    for want in [Ok(3), Ok(2), Ok(0)] {
        assert!(rt; source.read(&mut into) == want);
    }
    assert!(rt; into == *b"lol");
    let mut broken = StdSource::new(Broken { has_failed: false });
    assert!(rt; (broken.read(&mut into), broken.read(&mut into)) == (Err(Failed), Ok(0)));
}

#[test]
fn a_sink_over_a_writer_hands_its_bytes_on(rt: HostRuntime) {
    let mut written = Vec::new(rt.alloc());
    let mut sink = StdSink::new(&mut written);
    assert!(rt; sink.write(b"hello") == Ok(5));
    assert!(rt; written.as_slice() == b"hello".as_slice());
    // the first write fails, and the next takes nothing of a part that isn't empty
    let mut broken = StdSink::new(Broken { has_failed: false });
    let writes = (
        broken.write(b"hello"),
        broken.write(b"hello"),
        broken.write(b""),
    );
    assert!(rt; writes == (Err(Failed), Err(Failed), Ok(0)));
}

#[test]
fn the_real_streams(rt: HostRuntime) {
    let mut sink = StdSink::new(rt.stdout());
    assert!(rt; sink.write(b"") == Ok(0));
    let mut source = StdSource::new(rt.stdin());
    assert!(rt; source.read(&mut []) == Ok(0));
}
