ghost use Rattle.std.specs.Prelude.{◌<◌, Some};
ghost use Rattle.env_io.specs.Memory.{taken_by};

use env_io::{Failed, MemSink, MemSource, Sink, Source};

/// A source that may fail, and gives only so many bytes a call.
#[derive(Drop)]
pub struct ShortSource {
    source: MemSource,
    most: usize,
    ghost some: { 0 < most },
}

impl ShortSource {
    pub fn new(source: MemSource, most: u32) -> ShortSource
        requires { 0 < most }
    {
        let most = most as usize;
        ShortSource { source, most }
    }
}

impl Source for ShortSource {
    ghost left = { λ s. Some s.source.left };

    ghost faults = { λ s. s.source.plan.faults };

    fn take(&mut self, into: &mut [u8]) -> Result<usize, Failed> {
        let most = self.most.min(into.len());
        self.source.take(&mut into[..most])
    }
}

/// A sink that may fail, and takes only so many bytes a call.
#[derive(Drop)]
pub struct ShortSink {
    pub sink: MemSink,
    most: usize,
    ghost some: { 0 < most },
}

impl ShortSink {
    pub fn new(sink: MemSink, most: u32) -> ShortSink
        requires { 0 < most }
    {
        let most = most as usize;
        ShortSink { sink, most }
    }
}

impl Sink for ShortSink {
    ghost holds = { λ s. taken_by s.sink.store };

    ghost faults = { λ s. s.sink.plan.faults };

    fn put(&mut self, piece: &[u8]) -> Result<usize, Failed> {
        let most = self.most.min(piece.len());
        self.sink.put(&piece[..most])
    }
}
