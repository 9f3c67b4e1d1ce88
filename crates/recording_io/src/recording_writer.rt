//! A writer that wraps any writer, such as a process's standard output, and records what was
//! written in ghost state.
ghost use Rattle.std.specs.Prelude.{◌≡◌, [], Some};
ghost use Rattle.std.specs.Io.{WritesAtMost};
ghost use Rattle.std.specs.Io.KnownBytes.{Appends, Keeps, WriteAppends};
ghost use Rattle.recording_io.specs.Tapes.{IsSameWriter, RecordsWrite, no_calls};

use crate::recorder::Recorder;
use crate::tape::Tape;
use std::fmt::{Debug, Formatter};
use std::io::{ErrorKind, Write};
use std::marker::Model;
use std::snapshot::Snapshot;
use std::{fmt, io};

/// A writer that borrows another writer and records the bytes that its writes accepted.
///
/// The record is ghost state: contracts can refer to it, and it takes no room in the running
/// program. To code that uses it as a `Write`, its contents are the recorded bytes, even where the
/// contents of the writer below aren't known.
#[derive(Drop)]
pub struct RecordingWriter<'a, W: Write> {
    to: &'a mut W,
    start: Snapshot<W>,
    tape: Tape,
}

impl<'a, W: Write> Model for RecordingWriter<'a, W> {
    ghost use Rattle.std.specs.Io.KnownBytes.{Appends};
    ghost use Rattle.recording_io.specs.Tapes.{WriterRecord};

    ghost Value = { WriterRecord };

    ghost view = { λ t. record {
      writer = t.to.ghost_name;
      at_start = W.contents t.start.value;
      contents = W.contents t.to.now;
      bytes = t.tape.bytes;
      calls = t.tape.calls;
    } };

    ghost invariant = { λ t. Appends (W.contents t.start.value) (W.contents t.to.now) t.tape.bytes };
}

impl<W: Write> Debug for RecordingWriter<'_, W> {
    fn fmt<F: fmt::Write>(&self, f: &mut Formatter<F>) -> fmt::Result {
        f.debug_struct("RecordingWriter").finish_non_exhaustive()
    }
}

impl<'a, W: Write> RecordingWriter<'a, W> {
    /// A writer over `to` with an empty record.
    ///
    /// ```rust
    /// let mut stdout = rt.stdout();
    /// let mut out = RecordingWriter::new(&mut stdout);
    /// let written = out.write(b"accepted,1\n");
    /// let _stdout = out.into_inner();
    /// ```
    pub fn new(to: &'a mut W) -> RecordingWriter<'a, W>
        ensures writer { result.writer ≡ to.entry.ghost_name }
        ensures at_start { result.at_start ≡ W.contents to.entry.now }
        ensures contents { result.contents ≡ W.contents to.entry.now }
        ensures bytes { result.bytes ≡ [] }
        ensures calls { result.calls ≡ no_calls }
    {
        let start = Snapshot::of(&*to);
        RecordingWriter {
            to,
            start,
            tape: Tape::new(),
        }
    }

    /// Returns the borrowed writer and drops the record. Writes nothing.
    pub fn into_inner(self) -> &'a mut W
        ensures writer { result.ghost_name ≡ self.entry.writer }
        ensures contents { W.contents result.now ≡ self.entry.contents }
        ensures appended { Appends self.entry.at_start (W.contents result.now) self.entry.bytes }
    {
        let RecordingWriter { to, .. } = self;
        to
    }
}

impl<'a, W: Write> Write for RecordingWriter<'a, W> {
    ghost use Rattle.std.specs.Prelude.{Some};

    ghost contents = { λ t. Some t.bytes };

    /// Writes once to the writer below, from `buf`, and returns the result of that write.
    ///
    /// # Errors
    ///
    /// Every error is the error of the writer below. No byte is recorded, and an error of the kind
    /// `ErrorKind::Interrupted` counts as an interruption.
    fn write(&mut self, buf: &[u8]) -> io::Result<usize>
        ensures bound { WritesAtMost result buf.now }
        ensures bytes { WriteAppends (Some self.old.bytes) (Some self.new.bytes) result buf.now }
        ensures contents { WriteAppends self.old.contents self.new.contents result buf.now }
        ensures recorded { RecordsWrite self.old self.new result buf.now }
        ensures same { IsSameWriter self.old self.new }
    {
        match self.to.write(buf) {
            Ok(count) => {
                self.tape.note(buf, count, false);
                Ok(count)
            }
            Err(e) => {
                self.tape.note(&[], 0, e.kind() == ErrorKind::Interrupted);
                Err(e)
            }
        }
    }

    /// Flushes the writer below; the record stays as it is.
    ///
    /// # Errors
    ///
    /// Every error is the error of the writer below. The record stays as it is.
    fn flush(&mut self) -> io::Result<()>
        ensures contents { Keeps self.old.contents self.new.contents }
        ensures kept { (self.new.bytes ≡ self.old.bytes) × (self.new.calls ≡ self.old.calls) }
        ensures bytes { Keeps (Some self.old.bytes) (Some self.new.bytes) }
        ensures same { IsSameWriter self.old self.new }
    {
        self.to.flush()
    }
}

impl<'a, W: Write> Recorder for RecordingWriter<'a, W> {
    ghost recorded = { λ t. t };

    fn write_once(&mut self, buf: &[u8]) -> io::Result<usize> {
        self.write(buf)
    }
}
