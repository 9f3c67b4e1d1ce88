//! Runs of a machine through a list of events.
ghost use Rattle.std.specs.Prelude.{◌≡◌, ◌≤◌, [], length, take, vec_capacity, IfOk, IfErr, OnOk};
ghost use Rattle.council_core.specs.declared.refusals.Refusal.TheVariants.{OutOfMemory};
ghost use Rattle.two_copy_steps.specs.Transitions.{machine_at_start, state_after_events, notes};
ghost use Rattle.two_copy_steps.specs.Machines.{IsFew};
ghost use Rattle.two_copy_steps.specs.Records.{FrontsNeverFall};
ghost use Rattle.two_copy_steps.specs.declared.events.Event.{Event};
ghost use Rattle.two_copy_steps.specs.Runs.{machine_after, ReportsReplies, KeepsRecordsReported, WantsMemoryFrom};
ghost use Rattle.two_copy_steps.specs.Runs.{KeepsRecordsLegal, StoresUnderNobody, IsFault};

use crate::events::{Event, Note};
use crate::machine::Machine;
use council_core::{Refusal, Register};
use std::alloc::Global;
use std::marker::Model;
use thiserror::Error;

/// The outputs of a list of events, one for each event.
#[derive(Debug, Drop)]
pub struct Notes {
    list: Vec<Note>,
}

impl Model for Notes {
    ghost use Rattle.std.specs.Prelude.{List};
    ghost use Rattle.two_copy_steps.specs.declared.events.Note.{Note};

    ghost Value = { List Note };

    ghost view = { λ n. n.list.items };
}

impl Notes {
    /// The outputs, in order.
    pub fn as_slice(&self) -> &[Note]
        ensures { result.now ≡ self.now }
    {
        self.list.as_slice()
    }

    /// The outputs as a vector. This allocates nothing.
    pub fn into_vec(self) -> Vec<Note>
        ensures { result.items ≡ self }
    {
        self.list
    }
}

/// The outputs of a list of events, and the machine after the last event.
#[derive(Debug, Drop)]
pub struct RunLog {
    /// One output for each event.
    pub notes: Notes,
    /// The machine after the last event.
    pub machine: Machine,
}

/// The reason why a run ended before its last event, and the register at that point.
#[derive(Debug, Drop, Error)]
#[error("after {done} events: {why}")]
pub struct RunFault {
    /// The register after the completed events.
    pub register: Register,
    /// The number of completed events.
    pub done: usize,
    /// `BadLimit` if the number of readers is not from 1 to `READERS`, otherwise `OutOfMemory`: for
    /// the outputs, before any event, or for the command that was next.
    pub why: Refusal,
}

/// Runs a new machine over `register`, with `readers` readers, through `events`. Memory for the
/// outputs is reserved before the first event. The outputs of a successful run are those of the
/// sequential register: each command, each publication and each reading acts as one of its calls.
///
/// # Errors
///
/// A `RunFault` with the register after the completed events, the number of these events, and the
/// reason:
///
/// - `Refusal::BadLimit` if `readers` is not from 1 to `READERS`; no event was completed;
/// - `Refusal::OutOfMemory` if memory could not be allocated for the outputs, before any event, or
///   for the next event, a command that the register accepts while no publication is in progress.
///
/// ```rust
/// let open = Command::Open(ChairId::new(1)?);
/// match run(alloc, register, 1, &[Event::Submit(open), Event::Publish]) {
///     Ok(log) => assert_eq!(rt; (log.notes.as_slice().len(), log.machine.published()), (2, 0)),
///     Err(fault) => return Err(fault.why),
/// }
/// ```
pub fn run(
    alloc: Global,
    register: Register,
    readers: u8,
    events: &[Event],
) -> Result<RunLog, RunFault>
    ensures notes { IfOk result (λ log. log.notes ≡ notes (machine_at_start register readers) events.now) }
    ensures machine { IfOk result (λ log. log.machine ≡ machine_after register readers events.now) }

    // The guarantees for every list of events.
    ensures replies { IfOk result (λ log. ReportsReplies register readers events.now) }
    ensures records { IfOk result (λ log. KeepsRecordsLegal register readers events.now) }
    ensures apart { IfOk result (λ log. StoresUnderNobody register readers events.now) }
    ensures reported { IfOk result (λ log. KeepsRecordsReported register readers events.now log.notes) }
    ensures never_older { IfOk result (λ log. FrontsNeverFall log.notes) }

    // The cases in which the run reaches its end.
    ensures in_range { IfOk result (λ log. IsFew readers) }
    ensures fault { IfErr result (λ fault. IsFault register readers events.now fault.register fault.done fault.why) }
{
    let mut machine = match Machine::start(register, readers) {
        Ok(machine) => machine,
        Err((register, why)) => {
            return Err(RunFault {
                register,
                done: 0,
                why,
            });
        }
    };
    let mut reported = match Vec::with_capacity(alloc, events.len()) {
        Ok(reported) => reported,
        Err(_) => return Err(fault(machine, 0)),
    };
    match step_all(&mut machine, &mut reported, events) {
        Ok(()) => {
            Ok(RunLog {
                notes: Notes { list: reported },
                machine,
            })
        }
        Err(done) => Err(fault(machine, done)),
    }
}

// The fault of a run whose memory ran out after `done` events.
fn fault(machine: Machine, done: usize) -> RunFault
    ensures register { result.register ≡ machine.ledger }
    ensures done { result.done ≡ done }
    ensures why { result.why ≡ OutOfMemory }
{
    RunFault {
        register: machine.into_register(),
        done,
        why: Refusal::OutOfMemory,
    }
}

// Carries out the events in turn. If one runs out of memory, returns the number of completed events
// as the error.
fn step_all(machine: &mut Machine, reported: &mut Vec<Note>, events: &[Event]) -> Result<(), usize>
    requires empty { reported.old.items ≡ [] }
    requires room { length events.now ≤ vec_capacity reported.old }
    ensures machine { OnOk result (machine.new ≡ state_after_events machine.old events.now) }
    ensures notes { OnOk result (reported.new.items ≡ notes machine.old events.now) }
    ensures left { IfErr result (λ done. machine.new ≡ state_after_events machine.old (take done events.now)) }
    ensures within { IfErr result (λ done. done ≤ length events.now) }
    ensures wanted { IfErr result (λ done. WantsMemoryFrom machine.old events.now done) }
{
    for (done, event) in events.iter().enumerate() {
        match machine.step(*event) {
            Ok(note) => reported.push_reserved(note),
            Err(_) => return Err(done),
        }
    }
    Ok(())
}
