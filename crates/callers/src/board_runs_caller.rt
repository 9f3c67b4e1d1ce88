//! A caller of `board_runs`.
ghost use Rattle.std.specs.Prelude.{◌≡◌, ◌++◌, OnOk};
ghost use Rattle.board_text.specs.Text.{output};
ghost use Rattle.board_runs.specs.Replays.{run_of};

use board_runs::replay;
use board_text::{Fault, Limits};
use recording_io::{RecordingReader, RecordingWriter};
use std::alloc::Global;

/// Replays `input` and appends the output of the run to `out`.
pub fn replay_slice(
    alloc: Global,
    input: &[u8],
    out: &mut Vec<u8>,
    limits: Limits,
) -> Result<(), Fault>
    ensures wrote { OnOk result (out.new.items ≡ out.old.items ++ output (run_of limits input.now)) }
{
    let mut reader = RecordingReader::new(input);
    let mut recorder = RecordingWriter::new(out);
    let result = replay(alloc, &mut reader, &mut recorder, limits);
    let _out = recorder.into_inner();
    result
}
