use std::io::{self, ErrorKind, Read, Write};
use std::process::Abort;
use std::test::Fail;
use tap_io::{
    BufferedSink, Flushed, Got, MemorySink, MemorySource, Sink, Source, StdSink, StdSource, Took,
};

// Reads into four places at a time, and compares each answer and what came.
fn check_reads<S: Source>(rt: &impl Abort, source: &mut S, reads: &[(Got, &[u8])]) {
    for (answer, bytes) in reads {
        let mut into = [0u8; 4];
        assert_eq!(rt; source.read(&mut into), *answer);
        assert!(rt; into.starts_with(bytes));
    }
}

// Writes each text, which isn't empty, and compares each answer.
fn check_writes<K: Sink>(rt: &impl Abort, sink: &mut K, writes: &[(&[u8], Took)]) {
    for (bytes, answer) in writes {
        assert!(rt; !bytes.is_empty());
        assert_eq!(rt; sink.write(bytes), *answer);
    }
}

// A reader whose first call is interrupted.
#[derive(Drop)]
struct Interrupted<R> {
    inner: R,
    is_past: bool,
}

impl<R: Read> Read for Interrupted<R> {
    fn read(&mut self, buf: &mut [u8]) -> io::Result<usize> {
        if self.is_past {
            return self.inner.read(buf);
        }
        self.is_past = true;
        Err(ErrorKind::Interrupted.into())
    }
}

// A reader that counts its calls, whether they give bytes or not.
#[derive(Drop)]
struct Counted<'a, R> {
    inner: R,
    calls: &'a mut u32,
}

impl<R: Read> Read for Counted<'_, R> {
    fn read(&mut self, buf: &mut [u8]) -> io::Result<usize> {
        *self.calls = self.calls.saturating_add(1);
        self.inner.read(buf)
    }
}

// A writer whose second call fails.
#[derive(Drop)]
struct FailsOnce<W> {
    inner: W,
    calls: u32,
}

impl<W: Write> Write for FailsOnce<W> {
    fn write(&mut self, bytes: &[u8]) -> io::Result<usize> {
        self.calls = self.calls.saturating_add(1);
        if self.calls == 2 {
            return Err(ErrorKind::BrokenPipe.into());
        }
        self.inner.write(bytes)
    }

    fn flush(&mut self) -> io::Result<()> {
        Ok(())
    }
}

#[test]
fn memory_gives_and_takes_in_pieces(rt: HostRuntime) -> Result<(), Fail> {
    let mut source = MemorySource::new(rt.alloc(), b"tapestry", 3, &[2, 5])?;
    check_reads(
        &rt,
        &mut source,
        &[
            (Got::Got(3), b"tap"),
            (Got::Failed, b""),
            (Got::Got(3), b"est"),
            (Got::Got(2), b"ry"),
            (Got::Failed, b""),
            (Got::End, b""),
            (Got::End, b""),
        ],
    );
    let mut sink = MemorySink::new(rt.alloc(), 3, 7, &[2])?;
    check_writes(
        &rt,
        &mut sink,
        &[
            (b"tapestry", Took::Took(3)),
            (b"estry", Took::Failed),
            (b"estry", Took::Took(3)),
            (b"ry", Took::Took(1)),
            (b"y", Took::Failed),
        ],
    );
    assert_eq!(rt; sink.bytes(), b"tapestr".as_slice());
    Ok(())
}

#[test]
fn std_carries_the_bytes(rt: HostRuntime) -> Result<(), Fail> {
    let mut source = StdSource::new(Interrupted {
        inner: b"tapestry".as_slice(),
        is_past: false,
    });
    check_reads(
        &rt,
        &mut source,
        &[
            (Got::Failed, b""),
            (Got::Got(4), b"tape"),
            (Got::Got(4), b"stry"),
            (Got::End, b""),
        ],
    );
    let mut written = Vec::new(rt.alloc());
    check_writes(
        &rt,
        &mut StdSink::new(&mut written),
        &[(b"tape", Took::Took(4)), (b"stry", Took::Took(4))],
    );
    assert_eq!(rt; written.as_slice(), b"tapestry".as_slice());
    let mut short = [0u8; 3];
    check_writes(
        &rt,
        &mut StdSink::new(short.as_mut_slice()),
        &[(b"tape", Took::Took(3)), (b"e", Took::Failed)],
    );
    assert_eq!(rt; short.as_slice(), b"tap".as_slice());
    let mut kept = Vec::new(rt.alloc());
    check_writes(
        &rt,
        &mut StdSink::new(FailsOnce {
            inner: &mut kept,
            calls: 0,
        }),
        &[
            (b"tape", Took::Took(4)),
            (b"stry", Took::Failed),
            (b"stry", Took::Took(4)),
        ],
    );
    assert_eq!(rt; kept.as_slice(), b"tapestry".as_slice());
    Ok(())
}

#[test]
fn each_read_is_one_call(rt: HostRuntime) -> Result<(), Fail> {
    let mut calls = 0;
    let mut source = StdSource::new(Counted {
        inner: b"tapes".as_slice(),
        calls: &mut calls,
    });
    check_reads(
        &rt,
        &mut source,
        &[
            (Got::Got(4), b"tape"),
            (Got::Got(1), b"s"),
            (Got::End, b""),
            (Got::End, b""),
        ],
    );
    drop(source);
    assert_eq!(rt; calls, 4);
    Ok(())
}

#[test]
fn what_waits_goes_out_in_large_pieces(rt: HostRuntime) -> Result<(), Fail> {
    // the second write behind it fails
    let mut sink = MemorySink::new(rt.alloc(), 64, 64, &[2])?;
    let room = Vec::with_capacity(rt.alloc(), 4)?;
    let mut buffered = BufferedSink::new(&mut sink, room);
    check_writes(
        &rt,
        &mut buffered,
        &[
            (b"ta", Took::Took(2)),
            (b"pe", Took::Took(2)),
            (b"st", Took::Took(2)),
            (b"routes", Took::Failed),
            (b"routes", Took::Took(6)),
            (b"y", Took::Took(1)),
        ],
    );
    assert_eq!(rt; buffered.flush(), Flushed::All);
    assert_eq!(rt; buffered.flush(), Flushed::All);
    assert_eq!(rt; buffered.into_inner().bytes(), b"tapestroutesy".as_slice());
    Ok(())
}

#[test]
fn a_failed_flush_leaves_the_rest(rt: HostRuntime) -> Result<(), Fail> {
    // each write behind it takes three bytes, and the second fails
    let mut sink = MemorySink::new(rt.alloc(), 3, 64, &[2])?;
    let room = Vec::with_capacity(rt.alloc(), 8)?;
    let mut buffered = BufferedSink::new(&mut sink, room);
    check_writes(&rt, &mut buffered, &[(b"tapestry", Took::Took(8))]);
    assert_eq!(rt; buffered.flush(), Flushed::Failed);
    check_writes(&rt, &mut buffered, &[(b"!", Took::Took(1))]);
    assert_eq!(rt; buffered.flush(), Flushed::All);
    assert_eq!(rt; buffered.into_inner().bytes(), b"tapestry!".as_slice());
    Ok(())
}
