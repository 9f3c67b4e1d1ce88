//! Writers that record what they wrote.
ghost use Rattle.std.specs.Io.{WritesAtMost};
ghost use Rattle.recording_io.specs.Tapes.{IsSameWriter, RecordsWrite, WriterRecord};

use std::io;

/// A writer that records its writes for contracts, such as a `RecordingWriter`.
pub trait Recorder {
    // What the writer has recorded.
    ghost recorded: { Self → WriterRecord };

    /// Writes once, from `buf`, and returns the result of that write.
    ///
    /// # Errors
    ///
    /// Every error is that of the write. No byte is recorded, and an error of the kind
    /// `ErrorKind::Interrupted` counts as an interruption.
    fn write_once(&mut self, buf: &[u8]) -> io::Result<usize>
        ensures bound { WritesAtMost result buf.now }
        ensures noted { RecordsWrite (recorded self.old) (recorded self.new) result buf.now }
        ensures same { IsSameWriter (recorded self.old) (recorded self.new) };
}
