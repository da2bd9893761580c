// A source and a sink over memory that go slowly.
use cc_outside::{Failed, MemorySink, MemorySource, Sink, Source, Unwritten};

/// A source that gives, or a sink that takes, at most one byte in each call.
#[derive(Drop)]
pub struct ByteByByte<T> {
    pub stream: T,
}

impl Source for ByteByByte<MemorySource> {
    ghost use Rattle.std.specs.Prelude.{None};

    ghost left = { λ _. None };

    ghost faults = { λ s. s.stream.faults };

    fn read(&mut self, buf: &mut [u8]) -> Result<usize, Failed> {
        let end = buf.len().min(1);
        self.stream.read(&mut buf[..end])
    }
}

impl Sink for ByteByByte<MemorySink> {
    ghost use Rattle.std.specs.Prelude.{None};

    ghost written = { λ _. None };

    ghost faults = { λ s. s.stream.faults };

    ghost wants = { λ s. s.stream.wants };

    fn write(&mut self, piece: &[u8]) -> Result<usize, Unwritten> {
        self.stream.write(&piece[..piece.len().min(1)])
    }
}
