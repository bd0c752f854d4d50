//! `answer` over streams that fail at each of their calls in turn, and over one that never ends.
use ca::answer_run;
use ca_link::{Fused, Reader, Writer};
use std::alloc::Global;
use std::io::{self, Read, Write};
use std::test::Fail;

/// CREATE_CHAN of TEMP, and a read of it.
const REQUESTS: &[u8] =
    b"\0\x12\0\x08\0\0\0\0\0\x01\0\0\0\0\0\x0dTEMP\0\0\0\0\0\x0f\0\0\0\x05\0\x01\0\x01\0\0\0\x01\
        \0\0";

/// The answer to the first.
const CREATED: &[u8] =
    b"\0\x16\0\0\0\0\0\0\0\x01\0\0\0\0\0\x03\0\x12\0\0\0\x05\0\x01\0\x01\0\0\0\x01\0\0";

/// Bytes that come in pieces of at most n, until this many reads were made.
#[derive(Drop)]
struct PiecewiseSource<'a> {
    bytes: &'a [u8],
    size: usize,
    reads: u64,
}

impl<'a> Read for PiecewiseSource<'a> {
    fn read(&mut self, buffer: &mut [u8]) -> io::Result<usize> {
        if self.reads == 0 {
            return Err(io::Error::from(io::ErrorKind::TimedOut));
        }
        self.reads -= 1;
        let most = self.size.min(self.bytes.len());
        let mut front = &self.bytes[..most];
        let n = front.read(buffer)?;
        self.bytes = self.bytes.get(n..).unwrap_or(&[]);
        Ok(n)
    }
}

#[test]
fn failing_output_is_refused(rt: HostRuntime) -> Result<(), Fail> {
    for (passes, output) in [(0, b"".as_slice()), (1, CREATED)] {
        // The first read returns the first request alone.
        let mut source = Reader::new(PiecewiseSource {
            bytes: REQUESTS,
            size: 24,
            reads: u64::MAX,
        });
        let mut sink = Fused::new(Writer::new(Vec::new(rt.alloc())), passes);
        let mut told = Vec::new(rt.alloc());
        let status = answer_run(rt.alloc(), None, &mut source, &mut sink, &mut told);
        assert_eq!(rt; status, 1);
        assert_eq!(rt; sink.inner.writer.as_slice(), output);
        assert_eq!(rt; told.as_slice(), b"refused: 23 Device\n".as_slice());
    }
    Ok(())
}

/// VERSION, CREATE_CHAN of TEMP, a read of it, and CLEAR_CHANNEL.
const STORED: &[u8] =
    b"\0\0\0\0\0\0\0\x0d\0\0\0\0\0\0\0\0\0\x12\0\x08\0\0\0\0\0\x01\0\0\0\0\0\x0dTEMP\0\0\0\0\0\
        \x0f\0\0\0\x05\0\x01\0\x01\0\0\0\x01\0\0\0\x0c\0\0\0\0\0\0\0\x01\0\0\0\x01\0\0";

/// What is answered to them.
const ANSWERS: &[u8] =
    b"\0\0\0\0\0\0\0\x0d\0\0\0\0\0\0\0\0\0\x16\0\0\0\0\0\0\0\x01\0\0\0\0\0\x03\0\x12\0\0\0\x05\0\
        \x01\0\x01\0\0\0\x01\0\0\0\x0f\0\x08\0\x05\0\x01\0\0\0\x01\0\x01\0\0\0\0\0\x15\0\0\0\0\0\
        \x0c\0\0\0\0\0\0\0\x01\0\0\0\x01\0\0";

/// The status and what was written and told, if the reads after the first n fail, those of the
/// reader or of the source over it, or the writes after the first n.
fn fused(
    alloc: Global,
    size: usize,
    reads: [u64; 2],
    writes: u64,
) -> Result<(u8, Vec<u8>, Vec<u8>), Fail> {
    let pieces = PiecewiseSource {
        bytes: STORED,
        size,
        reads: reads[0],
    };
    let mut source = Fused::new(Reader::new(pieces), reads[1]);
    let mut sink = Fused::new(Writer::new(Vec::new(alloc)), writes);
    let mut told = Vec::new(alloc);
    let status = answer_run(alloc, None, &mut source, &mut sink, &mut told);
    Ok((status, sink.inner.writer, told))
}

#[test]
fn each_read_that_fails_ends_the_run(rt: HostRuntime) -> Result<(), Fail> {
    // The size of the pieces, and how many reads there are: the last finds the end.
    for (size, reads) in [(1, 73), (16, 6), (24, 4), (72, 2)] {
        for passes in 0..reads {
            for those in [[passes, u64::MAX], [u64::MAX, passes]] {
                let (status, written, told) = fused(rt.alloc(), size, those, u64::MAX)?;
                assert_eq!(rt; status, 1);
                assert_eq!(rt; told.as_slice(), b"refused: 23 Device\n".as_slice());
                assert!(rt; ANSWERS.starts_with(&written));
            }
        }
        let (status, written, _) = fused(rt.alloc(), size, [reads, reads], u64::MAX)?;
        assert_eq!(rt; status, 0);
        assert_eq!(rt; written.as_slice(), ANSWERS);
    }
    Ok(())
}

#[test]
fn each_write_that_fails_ends_the_run(rt: HostRuntime) -> Result<(), Fail> {
    // One message is answered by each write: the four of them, or all by one.
    for (size, writes) in [(1, 4), (72, 1)] {
        for passes in 0..writes {
            let (status, written, told) = fused(rt.alloc(), size, [u64::MAX; 2], passes)?;
            assert_eq!(rt; status, 1);
            assert_eq!(rt; told.as_slice(), b"refused: 23 Device\n".as_slice());
            assert!(rt; ANSWERS.starts_with(&written) && written.len() < ANSWERS.len());
        }
        let (status, written, _) = fused(rt.alloc(), size, [u64::MAX; 2], writes)?;
        assert_eq!(rt; status, 0);
        assert_eq!(rt; written.as_slice(), ANSWERS);
    }
    Ok(())
}

/// ECHO again and again, one byte a read: how many bytes were read.
#[derive(Drop)]
struct Echoes {
    read: u64,
}

impl Read for Echoes {
    fn read(&mut self, buffer: &mut [u8]) -> io::Result<usize> {
        let mut byte: &[u8] = if self.read % 16 == 1 { &[23] } else { &[0] };
        let n = byte.read(buffer)?;
        self.read += n as u64;
        Ok(n)
    }
}

/// How many bytes were written.
#[derive(Drop)]
struct Counted {
    written: u64,
}

impl Write for Counted {
    fn write(&mut self, bytes: &[u8]) -> io::Result<usize> {
        self.written += bytes.len() as u64;
        Ok(bytes.len())
    }

    fn flush(&mut self) -> io::Result<()> {
        Ok(())
    }
}

// 986,880 reads and 61,680 writes are 1,048,560 calls. With 16 more the next ECHO is there, and
// there is no call left to answer it.
#[test]
fn echoes_without_an_end_are_answered_for_1048576_calls(rt: HostRuntime) {
    let mut source = Reader::new(Echoes { read: 0 });
    let mut sink = Writer::new(Counted { written: 0 });
    let mut told = Vec::new(rt.alloc());
    let status = answer_run(rt.alloc(), None, &mut source, &mut sink, &mut told);
    assert_eq!(rt; status, 1);
    assert_eq!(rt; told.as_slice(), b"refused: 23 Device\n".as_slice());
    assert_eq!(rt; sink.writer.written, 986_880);
}
