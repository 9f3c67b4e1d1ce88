//! The events of the machine, and their outputs.
use council_core::{Command, Refusal, Sheet};

/// One event: a call of the writer, or the next step of an actor.
#[derive(Clone, Copy, Debug, PartialEq, Eq, Hash)]
pub enum Event {
    /// Submits a command to the register.
    Submit(Command),
    /// Begins a publication of all accepted commands.
    Publish,
    /// Takes the writer's next step.
    Writer,
    /// Takes the next step of the reader with this number, counted from 1.
    Reader(u8),
}

/// The output of an event.
#[derive(Clone, Copy, Debug, PartialEq, Eq, Hash)]
pub enum Note {
    /// The command was accepted. The field is the number of accepted commands, including this one.
    Accepted(u32),
    /// The command was refused with this refusal, which is never out of memory.
    Refused(Refusal),
    /// A publication began.
    Began,
    /// An actor took a step without any other output.
    Moved,
    /// The number of published commands, after this step published them or because none is pending.
    Published(u32),
    /// The writer found the pin of this reader, counted from 1, at 1 and abandoned its publication.
    Busy(u8),
    /// This reader, counted from 1, has finished a reading of this sheet.
    Read(u8, Sheet),
    /// There was nothing to do.
    Skipped,
}
