use mea_io::{Failed, MemSink, PutFault, Sink, Source, StdSink, StdSource, SureSink};
use std::io;

/// Reads nothing, and writes nothing.
#[derive(Drop)]
struct Broken;

impl io::Read for Broken {
    fn read(&mut self, _buffer: &mut [u8]) -> io::Result<usize> {
        Err(io::Error::from(io::ErrorKind::Other))
    }
}

impl io::Write for Broken {
    fn write(&mut self, _piece: &[u8]) -> io::Result<usize> {
        Ok(0)
    }

    fn flush(&mut self) -> io::Result<()> {
        Ok(())
    }
}

#[test]
fn a_reader_is_a_source(rt: HostRuntime) {
    let mut buffer = [0u8; 4];
    let mut source = StdSource::new(b"hello".as_slice());
    assert!(rt; source.take(&mut buffer) == Ok(4));
    assert!(rt; buffer.as_slice() == b"hell".as_slice());
    assert!(rt; source.take(&mut buffer) == Ok(1));
    assert!(rt; buffer[0] == b'o');
    assert!(rt; source.take(&mut buffer) == Ok(0));
    let mut broken = StdSource::new(Broken);
    assert!(rt; broken.take(&mut buffer) == Err(Failed));
}

#[test]
fn a_writer_is_a_sink(rt: HostRuntime) {
    let mut sink = StdSink::new(Vec::new(rt.alloc()));
    assert!(rt; sink.put(b"hello") == Ok(5));
    assert!(rt; sink.put(b"") == Ok(0));
    let mut broken = StdSink::new(Broken);
    assert!(rt; broken.put(b"hello") == Err(PutFault::Failed));
    assert!(rt; broken.put(b"") == Ok(0));
}

// Each call that may find no memory finds some.
#[test]
fn ample(rt: HostRuntime) {
    let mut sure = SureSink::new(rt.alloc(), 8);
    assert!(rt; sure.put(b"hello") == Ok(5));
    let mut kept = MemSink::new(rt.alloc(), 8, Vec::new(rt.alloc()));
    assert!(rt; kept.put(b"hello") == Ok(5));
}
