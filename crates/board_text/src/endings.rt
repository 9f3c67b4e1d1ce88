//! The end of a run.
ghost use Rattle.board_text.specs.Output.{Ends, EndsRun};
ghost use Rattle.board_text.specs.OutputStates.{IsSameOutput};

use crate::faults::Fault;
use crate::lines::line_of_fault;
use crate::output::Output;
use crate::stops::Stop;
use council_core::Refusal;
use recording_io::Recorder;

// Writes the line of a fault and returns that fault, or `WriteFault` at 0 if the line could not be
// written.
fn end_with<W: Recorder>(out: &mut Output<'_, W>, fault: Fault) -> Fault
    ensures ends { Ends out.old out.new fault result }
    ensures same_output { IsSameOutput out.old out.new }
{
    match out.write_line(line_of_fault(fault)) {
        Ok(()) => return fault,
        Err(_) => return Fault::new(Refusal::WriteFault, 0),
    }
}

/// Ends a run: writes the line of the fault that stopped it, if one did. After a failed write no
/// line is written.
///
/// # Errors
///
/// The fault of the stop, or `WriteFault` at 0 if a write had failed or the line could not be
/// written.
pub fn end_run<T: Drop, W: Recorder>(
    out: &mut Output<'_, W>,
    carried: Result<T, Stop>,
) -> Result<T, Fault>
    ensures ends { EndsRun out.old out.new carried result }
    ensures same_output { IsSameOutput out.old out.new }
{
    let stop = match carried {
        Ok(done) => return Ok(done),
        Err(stop) => stop,
    };
    match stop.to_fault() {
        Some(fault) => Err(end_with(out, fault)),
        None => Err(Fault::new(Refusal::WriteFault, 0)),
    }
}
