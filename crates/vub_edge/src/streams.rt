ghost use Rattle.std.specs.Prelude.{◌≡◌, ◌≤◌, None, length, IfOk, OnOk};
ghost use Rattle.std.specs.Io.KnownBytes.{ReadConsumes, Appends};
ghost use Rattle.vub_base.specs.Causes.{HasCause};
ghost use Rattle.vub_base.specs.Sources.{Reads};
ghost use Rattle.vub_base.specs.Sinks.{Writes};

use crate::counting::counted;
use std::io::{Read, Write};
use vub_base::{Failed, Sink, Source};

/// A source over a reader of std, as standard input.
#[derive(Drop)]
pub struct FileSource<R> {
    inner: R,
    faults: u64,
}

impl<R: Read> FileSource<R> {
    /// A source of what the reader gives.
    pub fn new(inner: R) -> FileSource<R> {
        FileSource { inner, faults: 0 }
    }
}

impl<R: Read> Source for FileSource<R> {
    ghost left = { λ _. None };

    ghost faults = { λ s. s.faults };

    fn read(&mut self, into: &mut [u8]) -> Result<usize, Failed>
        ensures within { IfOk result (λ n. n ≤ length into.new) }
        ensures reads { Reads None None result into.new }
        ensures cause { HasCause self.old.faults self.new.faults result }

        // What it gives is what it took off the reader: none only at the end, and none where it fails.
        ensures consumes { ReadConsumes (R.remaining self.old.inner) (R.remaining self.new.inner) result into.new }
    {
        let answer = self.inner.read(into);
        counted(&mut self.faults, answer)
    }
}

/// A sink over a writer of std, as standard output.
#[derive(Drop)]
pub struct FileSink<W> {
    inner: W,
    faults: u64,
}

impl<W: Write> FileSink<W> {
    /// A sink that hands all on to the writer.
    pub fn new(inner: W) -> FileSink<W> {
        FileSink { inner, faults: 0 }
    }
}

impl<W: Write> Sink for FileSink<W> {
    ghost held = { λ _. None };

    ghost faults = { λ s. s.faults };

    fn write(&mut self, piece: &[u8]) -> Result<(), Failed>
        ensures writes { Writes None None result piece.now }
        ensures cause { HasCause self.old.faults self.new.faults result }

        // The writer grew by the whole piece.
        ensures appends { OnOk result (Appends (W.contents self.old.inner) (W.contents self.new.inner) piece.now) }
    {
        let answer = self.inner.write_all(piece);
        counted(&mut self.faults, answer)
    }
}
