use tap_io::{Got, MemorySink, MemorySource, Sink, Source, Took};

/// A source in memory that counts its calls, also those that fail.
#[derive(Drop)]
pub(crate) struct CountedSource {
    inner: MemorySource,
    calls: u32,
}

impl CountedSource {
    /// Counts the calls of this one.
    pub(crate) fn new(inner: MemorySource) -> CountedSource {
        CountedSource { inner, calls: 0 }
    }

    /// How often it was read.
    pub(crate) fn calls(&self) -> u32 {
        self.calls
    }
}

impl Source for CountedSource {
    ghost use Rattle.tap_io.specs.MemorySource.{source_state};

    ghost state = { λ counted. source_state counted.inner };

    fn read(&mut self, into: &mut [u8]) -> Got {
        self.calls = self.calls.saturating_add(1);
        self.inner.read(into)
    }
}

/// A sink in memory that counts its calls, also those that fail.
#[derive(Drop)]
pub(crate) struct CountedSink {
    inner: MemorySink,
    calls: u32,
}

impl CountedSink {
    /// Counts the calls of this one.
    pub(crate) fn new(inner: MemorySink) -> CountedSink {
        CountedSink { inner, calls: 0 }
    }

    /// How often it was written to.
    pub(crate) fn calls(&self) -> u32 {
        self.calls
    }
}

impl Sink for CountedSink {
    ghost use Rattle.tap_io.specs.MemorySink.{sink_state};

    ghost state = { λ counted. sink_state counted.inner };

    fn write(&mut self, bytes: &[u8]) -> Took {
        self.calls = self.calls.saturating_add(1);
        self.inner.write(bytes)
    }
}
