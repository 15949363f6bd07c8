//! Ends over what reads and writes in the system's way. They tell what the reader or the writer tells.
ghost use Rattle.std.specs.Prelude.{◌≡◌, refl};
ghost use Rattle.io_edge.specs.Faults.{StaysTold};

use crate::edge::{Failed, Sink, Source};
use std::io::{Read, Stderr, Stdin, Stdout, Write};

/// What reads. Whether it tells the bytes that it has left is a matter of its type, so no read changes it.
pub trait Reader: Read + Drop {
    ghost steady: { (a b : Self) → StaysTold (Self.remaining a) (Self.remaining b) };
}

impl Reader for Stdin {
    ghost steady = { λ _ _. refl };
}

/// What writes. Whether it tells the bytes that it holds is a matter of its type, so no write changes it.
pub trait Writer: Write + Drop {
    ghost steady: { (a b : Self) → StaysTold (Self.contents a) (Self.contents b) };
}

impl Writer for Stdout {
    ghost steady = { λ _ _. refl };
}

impl Writer for Stderr {
    ghost steady = { λ _ _. refl };
}

/// A source over a reader, which counts its faults. What is left is what the reader tells.
#[derive(Drop)]
pub struct StdSource<R: Reader> {
    reader: R,
    faults: u64,
}

impl<R: Reader> StdSource<R> {
    /// A source over this reader, without a fault so far.
    pub fn new(reader: R) -> StdSource<R>
        ensures reader { result.reader ≡ reader }
        ensures faults { result.faults ≡ 0 }
    {
        StdSource { reader, faults: 0 }
    }
}

impl<R: Reader> Source for StdSource<R> {
    ghost left = { λ s. R.remaining s.reader };

    ghost faults = { λ s. s.faults };

    fn read(&mut self, room: &mut [u8]) -> Result<usize, Failed> {
        match self.reader.read(room) {
            Ok(count) => Ok(count),
            Err(_) => {
                self.faults = self.faults.saturating_add(1);
                Err(Failed)
            }
        }
    }
}

/// A sink over a writer, which counts its faults. What it holds is what the writer tells. A write that takes nothing of a piece
/// that is not empty is a fault.
#[derive(Drop)]
pub struct StdSink<W: Writer> {
    writer: W,
    faults: u64,
}

impl<W: Writer> StdSink<W> {
    /// A sink over this writer, without a fault so far.
    pub fn new(writer: W) -> StdSink<W>
        ensures writer { result.writer ≡ writer }
        ensures faults { result.faults ≡ 0 }
    {
        StdSink { writer, faults: 0 }
    }
}

impl<W: Writer> Sink for StdSink<W> {
    ghost holds = { λ s. W.contents s.writer };

    ghost faults = { λ s. s.faults };

    fn write(&mut self, piece: &[u8]) -> Result<usize, Failed> {
        match self.writer.write(piece) {
            Ok(count) if count > 0 || piece.is_empty() => Ok(count),
            _ => {
                self.faults = self.faults.saturating_add(1);
                Err(Failed)
            }
        }
    }
}
