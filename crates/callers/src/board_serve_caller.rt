//! A caller of `board_serve`.
ghost use Rattle.std.specs.Prelude.{IfOk};
ghost use Rattle.council_core.specs.declared.limits.TheConstants.{MAX_COMMANDS};
ghost use Rattle.board_serve.specs.Outcomes.{ServedLegalRecords};
ghost use Rattle.board_serve.specs.Plans.{plan_of};

use board_serve::{FreeGate, Served, serve};
use board_text::Fault;
use council_core::MAX_COMMANDS;
use recording_io::{RecordingReader, RecordingWriter};
use std::alloc::Global;
use std::sync::Wait;
use std::thread::Threads;

/// Serves `input` with one writer thread and two reader threads, and appends the output to `out`. The journal, the cuts
/// and the readings that it returns are legal records.
pub fn serve_slice<T: Threads + Wait + Sync>(
    rt: &T,
    alloc: Global,
    input: &[u8],
    out: &mut Vec<u8>,
) -> Result<Served, Fault>
    ensures records { IfOk result
        (λ served. IfOk (plan_of MAX_COMMANDS input.now) (λ plan. ServedLegalRecords plan served)) }
{
    let mut reader = RecordingReader::new(input);
    let mut recorder = RecordingWriter::new(out);
    serve(
        rt,
        alloc,
        &FreeGate,
        &mut reader,
        &mut recorder,
        MAX_COMMANDS,
    )
}
