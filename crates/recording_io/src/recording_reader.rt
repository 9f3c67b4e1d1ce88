//! A reader that wraps any reader, such as a process's standard input, and records what it returned
//! in ghost state.
ghost use Rattle.std.specs.Prelude.{◌≡◌, false, []};
ghost use Rattle.std.specs.Io.{ReadsAtMost};
ghost use Rattle.std.specs.Io.KnownBytes.{ReadConsumes};
ghost use Rattle.recording_io.specs.Tapes.{RecordsRead, no_calls};

use crate::tape::Tape;
use std::fmt::{Debug, Formatter};
use std::io::{ErrorKind, Read};
use std::marker::Model;
use std::{fmt, io};

/// A reader that owns another reader and records the bytes that its reads returned.
///
/// The record is ghost state: contracts can refer to it, and it takes no room in the running
/// program.
#[derive(Drop)]
pub struct RecordingReader<R: Read + Drop> {
    from: R,
    tape: Tape,
}

impl<R: Read + Drop> Model for RecordingReader<R> {
    ghost use Rattle.recording_io.specs.Tapes.{ReaderRecord};

    ghost Value = { ReaderRecord };

    ghost view = { λ g. record {
      left = R.remaining g.from;
      bytes = g.tape.bytes;
      ended = g.tape.ended;
      calls = g.tape.calls;
    } };
}

impl<R: Read + Drop> Debug for RecordingReader<R> {
    fn fmt<W: fmt::Write>(&self, f: &mut Formatter<W>) -> fmt::Result {
        f.debug_struct("RecordingReader").finish_non_exhaustive()
    }
}

impl<R: Read + Drop> RecordingReader<R> {
    /// A reader over `from` with an empty record.
    ///
    /// ```rust
    /// let mut input = RecordingReader::new(rt.stdin());
    /// let mut piece = [0u8; 16];
    /// let count = input.read(&mut piece);
    /// ```
    pub fn new(from: R) -> RecordingReader<R>
        ensures left { result.left ≡ R.remaining from }
        ensures bytes { result.bytes ≡ [] }
        ensures ended { result.ended ≡ false }
        ensures calls { result.calls ≡ no_calls }
    {
        RecordingReader {
            from,
            tape: Tape::new(),
        }
    }
}

impl<R: Read + Drop> Read for RecordingReader<R> {
    ghost remaining = { λ g. g.left };

    /// Reads once from the reader below, into `buf`, and returns the result of that read. `Ok(0)`
    /// with room in `buf` means that the input has ended.
    ///
    /// # Errors
    ///
    /// Every error is the error of the reader below. No byte is recorded, and an error of the kind
    /// `ErrorKind::Interrupted` counts as an interruption.
    fn read(&mut self, buf: &mut [u8]) -> io::Result<usize>
        ensures bound { ReadsAtMost result buf.new }
        ensures bytes { ReadConsumes self.old.left self.new.left result buf.new }
        ensures recorded { RecordsRead self.old self.new result buf.new }
    {
        match self.from.read(buf) {
            Ok(count) => {
                self.tape.note(buf, count, false);
                Ok(count)
            }
            Err(e) => {
                self.tape.note(&[], 0, e.kind() == ErrorKind::Interrupted);
                Err(e)
            }
        }
    }
}
