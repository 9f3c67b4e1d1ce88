//! A caller of `two_copy_steps`.
ghost use Rattle.std.specs.Prelude.{IfOk, OnOk};
ghost use Rattle.two_copy_steps.specs.Records.{FrontsNeverFall};
ghost use Rattle.two_copy_steps.specs.Runs.{ReportsReplies};

use council_core::Register;
use std::alloc::Global;
use two_copy_steps::{Event, Notes, RunFault, run};

/// Runs a machine with two readers over `events` and returns its outputs: each answer equals the reply of the
/// sequential register, and no reader's front falls.
pub fn outputs_of(alloc: Global, register: Register, events: &[Event]) -> Result<Notes, RunFault>
    ensures replies { OnOk result (ReportsReplies register 2 events.now) }
    ensures never_older { IfOk result (λ notes. FrontsNeverFall notes) }
{
    let log = run(alloc, register, 2, events)?;
    Ok(log.notes)
}
