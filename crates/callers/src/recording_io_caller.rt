//! A caller of `recording_io`.
ghost use Rattle.std.specs.Prelude.{◌≡◌, take, IfOk};
ghost use Rattle.std.specs.Io.KnownBytes.{Appends};

use recording_io::{RecordingReader, RecordingWriter};
use std::io;
use std::io::{Read, Write};

/// Reads once from `from` and writes what was read once to `to`. Returns the reader, and the number of its bytes that
/// the writer took.
pub fn forward<R: Read + Drop, W: Write>(
    from: R,
    to: &mut W,
) -> io::Result<(RecordingReader<R>, usize)>
    ensures calls { IfOk result (λ r. r.0.calls.made ≡ 1) }
    ensures wrote { IfOk result (λ r. Appends (W.contents to.old) (W.contents to.new) (take r.1 r.0.bytes)) }
{
    let (mut reader, mut writer) = (RecordingReader::new(from), RecordingWriter::new(to));
    let mut bytes = [0; 512];
    let read = reader.read(&mut bytes)?;
    let written = writer.write(&bytes[..read])?;
    let _to = writer.into_inner();
    Ok((reader, written))
}
