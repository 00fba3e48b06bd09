//! Readers and writers of std behind the ends of a run: bytes go through, and what fails is a fault.
use rif_script::{Failed, Sink, Source, StdSink, StdSource};
use std::io::{self, Read, Write};
use std::test::Fail;

/// A reader that fails at its first call, and gives bytes at each later one.
#[derive(Drop)]
struct Stumbling {
    has_failed: bool,
}

impl Read for Stumbling {
    fn read(&mut self, buf: &mut [u8]) -> io::Result<usize> {
        if self.has_failed {
            return Ok(buf.len());
        }
        self.has_failed = true;
        Err(io::Error::from(io::ErrorKind::Other))
    }
}

/// A writer that keeps bytes back until it is flushed, and fails then.
#[derive(Drop)]
struct Clogged;

impl Write for Clogged {
    fn write(&mut self, buf: &[u8]) -> io::Result<usize> {
        Ok(buf.len())
    }

    fn flush(&mut self) -> io::Result<()> {
        Err(io::Error::from(io::ErrorKind::Other))
    }
}

#[test]
fn bytes_go_through(rt: HostRuntime) -> Result<(), Fail> {
    let mut buf = [0u8; 4];
    let mut source = StdSource::new(b"facts".as_slice());
    assert_eq!(rt; source.take(&mut buf), Ok(4));
    assert_eq!(rt; buf.as_slice(), b"fact".as_slice());
    let mut written = Vec::new(rt.alloc());
    let mut sink = StdSink::new(&mut written);
    assert_eq!(rt; sink.give(b"facts"), Ok(5));
    drop(sink);
    assert_eq!(rt; written.as_slice(), b"facts".as_slice());
    Ok(())
}

#[test]
fn a_failed_read_or_flush_is_a_fault(rt: HostRuntime) -> Result<(), Fail> {
    let mut buf = [0u8; 4];
    let mut source = StdSource::new(Stumbling { has_failed: false });
    assert_eq!(rt; source.take(&mut buf), Err(Failed));
    let mut sink = StdSink::new(Clogged);
    assert_eq!(rt; sink.give(b"facts"), Err(Failed));
    Ok(())
}
