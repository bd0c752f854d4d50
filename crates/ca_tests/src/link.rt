//! Streams over readers and writers, with a fuse: pieces, failures, and the counts of calls and
//! faults.
use ca_link::{Fault, Fused, Reader, Sink, Source, Writer};
use std::io::Write;

/// Reads once, into a buffer of n bytes.
fn read_piece<S: Source>(source: &mut S, buffer: &mut [u8]) -> Option<Result<usize, Fault>> {
    if buffer.is_empty() || source.calls() == u64::MAX || source.faults() == u64::MAX {
        return None;
    }
    Some(source.read(buffer))
}

/// Writes once.
fn write_piece<S: Sink>(sink: &mut S, bytes: &[u8]) -> Option<Result<(), Fault>> {
    if sink.calls() == u64::MAX || sink.faults() == u64::MAX {
        return None;
    }
    Some(sink.write(bytes))
}

/// A stream that takes three bytes a call, and then none.
#[derive(Drop)]
struct Narrow {
    taken: Vec<u8>,
    calls: usize,
}

impl Write for Narrow {
    fn write(&mut self, bytes: &[u8]) -> std::io::Result<usize> {
        if self.calls == 0 || bytes.len() < 3 {
            return Ok(0);
        }
        self.calls -= 1;
        self.taken.extend_from_slice(&bytes[..3])?;
        Ok(3)
    }

    fn flush(&mut self) -> std::io::Result<()> {
        Ok(())
    }
}

// The fuse passes four reads on; the last of them is at the end.
#[test]
fn pieces_are_read_until_the_fuse_blows(rt: HostRuntime) {
    let mut source = Fused::new(Reader::new(b"abcdefgh".as_slice()), 4);
    for piece in [b"abc".as_slice(), b"def", b"gh", b""] {
        let mut buffer = [0; 3];
        let outcome = read_piece(&mut source, &mut buffer);
        assert!(rt; outcome == Some(Ok(piece.len())));
        assert!(rt; buffer.get(..piece.len()) == Some(piece));
    }
    assert!(rt; read_piece(&mut source, &mut [0; 3]) == Some(Err(Fault)));
    assert!(rt; (source.calls(), source.faults()) == (5, 1));
    assert!(rt; (source.inner.calls(), source.inner.faults()) == (4, 0));
}

// The stream fails in the middle of the second write, and the fuse does not pass the fourth on.
#[test]
fn writes_fail_after_first_bytes(rt: HostRuntime) {
    let mut sink = Fused::new(
        Writer::new(Narrow {
            taken: Vec::new(rt.alloc()),
            calls: 3,
        }),
        3,
    );
    let failed = Some(Err(Fault));
    for (bytes, outcome) in [
        (b"access".as_slice(), Some(Ok(()))),
        (b"channel", failed),
        (b"", Some(Ok(()))),
        (b"", failed),
    ] {
        assert!(rt; write_piece(&mut sink, bytes) == outcome);
    }
    assert!(rt; sink.inner.writer.taken.as_slice() == b"accesscha".as_slice());
    assert!(rt; (sink.calls(), sink.faults()) == (4, 2));
    assert!(rt; (sink.inner.calls(), sink.inner.faults()) == (3, 1));
}
