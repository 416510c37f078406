//! Streams over a reader and a writer.

ghost use Rattle.std.specs.Prelude.{◌≡◌, ◌^◌, ◌<◌, ◌≤◌, ◌-◌, [], IsTrue, false};
ghost use Rattle.std.specs.Io.KnownBytes.{IsAtEnd, Keeps};
ghost use Rattle.dercheck.specs.declared.system.TheConstants.{MAX_READ};

use crate::stream::{Sink, Source};
use std::io::{Read, Write};

/// How many octets an `Input` asks its reader for at a time.
const MAX_READ: usize = 65536;

/// A source over a reader. It fails if the reader does, and before it has given 2^64 octets. What one read gave is at
/// hand for many pulls.
#[derive(Drop)]
pub struct Input<R> {
    reader: R,
    count: u64,
    has_failed: bool,
    // `octets[start..end]` were read, and not yet pulled.
    octets: [u8; MAX_READ],
    start: usize,
    end: usize,
    ghost ordered: { start ≤ end },
    ghost within: { end ≤ MAX_READ },
}

impl<R: Read> Input<R> {
    ghost use Rattle.dercheck.specs.Streams.{input_reader, input_at_hand, input_left, input_bound, input_failed};

    /// A source over `reader`, of at most 2^64 - 1 octets.
    pub fn new(reader: R) -> Self
        ensures reader { input_reader result ≡ reader }
        ensures bound { input_bound result ≡ 2 ^ 64 - 1 }
        ensures none { input_at_hand result ≡ [] }
        ensures flag { input_failed result ≡ false }
    {
        Input {
            reader,
            count: u64::MAX,
            has_failed: false,
            octets: [0; MAX_READ],
            start: 0,
            end: 0,
        }
    }

    /// Reads octets if none are at hand. False if the reader fails, or has given almost 2^64 octets.
    fn fill(&mut self) -> bool
        ensures left { Keeps (input_left R.remaining self.old) (input_left R.remaining self.new) }
        ensures bound { input_bound self.new ≤ input_bound self.old }
        ensures kept { self.old.start < self.old.end
            → IsTrue result × (self.new.start < self.new.end) }
        ensures end { IsTrue result → self.new.start ≡ self.new.end
            → IsAtEnd (R.remaining self.new.reader) }
        ensures flag { input_failed self.new ≡ input_failed self.old }
    {
        if self.start < self.end {
            return true;
        }
        if self.count < MAX_READ as u64 {
            return false;
        }
        match self.reader.read(&mut self.octets) {
            Ok(n) => {
                self.count -= n as u64;
                self.start = 0;
                self.end = n;
                true
            }
            Err(_) => false,
        }
    }
}

impl<R: Read> Source for Input<R> {
    ghost use Rattle.dercheck.specs.Streams.{input_left, input_bound, input_failed, input_ready};

    ghost left = { λ s. input_left R.remaining s };

    ghost has_failed = { λ s. input_failed s };

    ghost bound = { λ s. input_bound s };

    ghost ready = { λ s. input_ready s };

    fn pull(&mut self, buf: &mut [u8]) -> Option<usize> {
        if !self.fill() {
            self.has_failed = true;
            return None;
        }
        let n = buf.len().min(self.end - self.start);
        let next = self.start + n;
        buf[..n].copy_from_slice(&self.octets[self.start..next]);
        self.start = next;
        Some(n)
    }

    fn is_ready(&self) -> bool {
        self.start < self.end
    }

    fn failed(&self) -> bool {
        self.has_failed
    }
}

/// A sink over a writer. It fails if the writer does, or takes none of the octets that it is given.
#[derive(Drop)]
pub struct Output<W: Write> {
    writer: W,
    has_failed: bool,
}

impl<W: Write> Output<W> {
    ghost use Rattle.dercheck.specs.Streams.{output_writer, output_failed};

    /// A sink over `writer`.
    pub fn new(writer: W) -> Self
        ensures writer { output_writer result ≡ writer }
        ensures flag { output_failed result ≡ false }
    {
        Output {
            writer,
            has_failed: false,
        }
    }
}

impl<W: Write> Sink for Output<W> {
    ghost use Rattle.dercheck.specs.Streams.{output_writer, output_failed};

    ghost held = { λ s. W.contents (output_writer s) };

    ghost has_failed = { λ s. output_failed s };

    fn put(&mut self, octets: &[u8]) -> Option<usize> {
        match self.writer.write(octets) {
            Ok(n) if n > 0 || octets.is_empty() => Some(n),
            _ => {
                self.has_failed = true;
                None
            }
        }
    }

    fn failed(&self) -> bool {
        self.has_failed
    }
}
