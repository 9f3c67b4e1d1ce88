//! Writes whole texts, with a limited number of retries.
ghost use Rattle.std.specs.Prelude.{◌≡◌, ◌⊎◌, ◌≤◌, ◌+◌, Some, false, true, length, IfOk, IfErr, MatchResult};
ghost use Rattle.std.specs.Io.KnownBytes.{Appends};
ghost use Rattle.recording_io.specs.Tapes.{IsSameWriter};
ghost use Rattle.board_text.specs.Output.{AppendsFront, Writes, WritesSome};
ghost use Rattle.board_text.specs.OutputStates.{CallsAtMost, IsSameOutput, EachWriteAccepts};
ghost use Rattle.board_text.specs.Streams.{WriteFailed, WritesWithin};
ghost use Rattle.board_text.specs.Text.{line_text};

use crate::input::INTERRUPTIONS;
use crate::line::{LINE, Line};
use crate::stops::Stop;
use recording_io::Recorder;
use std::fmt;
use std::fmt::{Debug, Formatter};
use std::io::ErrorKind;
use std::marker::Model;
use std::snapshot::Snapshot;

/// A writer that retries interrupted writes. At most `INTERRUPTIONS` interrupted writes are retried
/// in one `Output`, and after a write that failed it makes no other.
#[derive(Drop)]
pub struct Output<'a, W: Recorder> {
    out: &'a mut W,
    start: Snapshot<W>,
    interrupted: u32,
    failed: bool,
}

impl<'a, W: Recorder> Model for Output<'a, W> {
    ghost use Rattle.std.specs.Prelude.{◌≤◌, Some};
    ghost use Rattle.board_text.specs.OutputStates.{IsWrittenBy, OutputState};
    ghost use Rattle.board_text.specs.declared.input.TheConstants.{INTERRUPTIONS};

    ghost Value = { OutputState };

    ghost view = { λ o. record {
      writer = o.out.ghost_name;
      start = W.recorded o.start.value;
      now = W.recorded o.out.now;
      contents = Some (W.recorded o.out.now).bytes;
      retried = o.interrupted;
      failed = o.failed;
    } };

    ghost invariant = { λ o. (o.interrupted ≤ INTERRUPTIONS)
        × IsWrittenBy (W.recorded o.start.value) (W.recorded o.out.now) o.interrupted o.failed };
}

impl<W: Recorder> Debug for Output<'_, W> {
    fn fmt<F: fmt::Write>(&self, f: &mut Formatter<F>) -> fmt::Result {
        f.debug_struct("Output").finish_non_exhaustive()
    }
}

impl<'a, W: Recorder> Output<'a, W> {
    /// An output over `out`, with no retries used.
    pub fn new(out: &'a mut W) -> Output<'a, W>
        ensures writer { result.writer ≡ out.entry.ghost_name }
        ensures start { result.start ≡ W.recorded out.entry.now }
        ensures contents { result.contents ≡ Some (W.recorded out.entry.now).bytes }
    {
        let start = Snapshot::of(&*out);
        Output {
            out,
            start,
            interrupted: 0,
            failed: false,
        }
    }

    /// Returns the borrowed writer. Writes nothing.
    pub fn into_inner(self) -> &'a mut W
        ensures writer { result.ghost_name ≡ self.entry.writer }
        ensures contents { Some (W.recorded result.now).bytes ≡ self.entry.contents }
        ensures same { IsSameWriter self.entry.start (W.recorded result.now) }
        ensures writes { WritesWithin self.entry.start (W.recorded result.now) }
        ensures failure { self.entry.failed ≡ true → WriteFailed self.entry.start.calls (W.recorded result.now).calls }
    {
        let Output { out, .. } = self;
        out
    }

    // One write: the number of bytes of the text that the writer accepted, or 0 if the write was
    // interrupted.
    fn write_some(&mut self, text: &[u8]) -> Result<usize, Stop>
        requires live { self.old.failed ≡ false }
        ensures once { self.new.now.calls.made ≡ self.old.now.calls.made + 1 }
        ensures accepts { EachWriteAccepts self.old self.new result }
        ensures accepted { WritesSome self.old.contents self.new.contents result text.now }
        ensures turn { IfOk result (λ n. self.old.retried + 1 ≤ n + self.new.retried) }
        ensures bound { self.new.retried ≤ INTERRUPTIONS }
        ensures live { MatchResult result (λ _. self.new.failed ≡ false) (λ _. self.new.failed ≡ true) }
        ensures same_output { IsSameOutput self.old self.new }
    {
        match self.out.write_once(text) {
            Ok(n) if n > 0 => return Ok(n),
            Err(e) if e.kind() == ErrorKind::Interrupted && self.interrupted < INTERRUPTIONS => {
                self.interrupted += 1;
                return Ok(0);
            }
            _ => {
                self.failed = true;
                return Err(Stop::WriteFault);
            }
        }
    }

    // Writes the whole text, unless a write has failed before. Each turn makes one write, which
    // accepts a byte or is an interruption that is retried. So there are no more writes than bytes
    // and retries, and none after a write that failed or accepted nothing.
    pub(crate) fn write_text(&mut self, text: &[u8]) -> Result<(), Stop>
        ensures written { Writes self.old.contents self.new.contents result text.now }
        ensures calls { CallsAtMost self.old self.new (length text.now) }
        ensures accepts { EachWriteAccepts self.old self.new result }
        ensures failed { IfErr result (λ _. self.new.failed ≡ true) }
        ensures same_output { IsSameOutput self.old self.new }
    {
        if self.failed {
            return Err(Stop::WriteFault);
        }
        let mut at = 0;
        let turns = text.len() + (INTERRUPTIONS - self.interrupted) as usize + 1;
        for _turn in 0..turns {
            if at == text.len() {
                return Ok(());
            }
            at += self.write_some(&text[at..])?;
        }
        unreachable!()
    }

    // Writes the text, or a prefix of it if the writer fails.
    fn write_front(&mut self, text: &[u8])
        ensures front { AppendsFront self.old.contents self.new.contents text.now }
        ensures whole_or_failed { Appends self.old.contents self.new.contents text.now ⊎ (self.new.failed ≡ true) }
        ensures calls { CallsAtMost self.old self.new (length text.now) }
        ensures same_output { IsSameOutput self.old self.new }
    {
        let _ = self.write_text(text);
    }

    /// Writes a line and its line end.
    ///
    /// # Errors
    ///
    /// `Stop::WriteFault`, the only error: a write failed, accepted nothing, or was interrupted
    /// after `INTERRUPTIONS` retries. A prefix of the line, possibly empty, was appended. After a
    /// write of this output that failed, nothing is.
    pub fn write_line(&mut self, mut line: Line) -> Result<(), Stop>
        requires room { length line + 1 ≤ LINE }
        ensures written { Writes self.old.contents self.new.contents result (line_text line) }
        ensures calls { CallsAtMost self.old self.new (length (line_text line)) }
        ensures accepts { EachWriteAccepts self.old self.new result }
        ensures failed { IfErr result (λ _. self.new.failed ≡ true) }
        ensures same_output { IsSameOutput self.old self.new }
    {
        line.end();
        self.write_text(line.as_bytes())
    }
}

/// Writes a text that is not part of a run, or a prefix of it if the writer fails. A failure is
/// ignored, and the contract promises only that a prefix was appended.
pub fn say<W: Recorder>(out: &mut W, text: &[u8])
    ensures said { AppendsFront (Some (W.recorded out.old).bytes) (Some (W.recorded out.new).bytes) text.now }
    ensures same { IsSameWriter (W.recorded out.old) (W.recorded out.new) }
    ensures writes { WritesWithin (W.recorded out.old) (W.recorded out.new) }
{
    let mut output = Output::new(out);
    output.write_front(text);
    let _out = output.into_inner();
}
