//! The running board and the machine on one thread, at the same events.
use crate::boards::{attempt, with_board};
use board_share::{Reader, Writer};
use council_core::Refusal;
use fixtures::{Draws, register};
use std::alloc::Global;
use std::test::Fail;
use two_copy_steps::{Event, Machine, Note};

const SCHEDULES: u64 = 400;

const EVENTS: usize = 400;

// The most steps of an attempt to publish: 4 pins, 34 words and side.
const STEPS: u32 = 39;

// Adds a command, a whole attempt to publish, or mostly a step of one of these readers.
fn add_drawn(events: &mut Vec<Event>, draws: &mut Draws, readers: u8) -> Result<(), Refusal> {
    let event = match draws.below(20) {
        0 => Event::Submit(draws.command()?),
        1 => Event::Publish,
        _ => Event::Reader((draws.below(u64::from(readers)) as u8).saturating_add(1)),
    };
    events.extend_from_slice(&[event])?;
    Ok(())
}

fn schedule(alloc: Global, draws: &mut Draws, readers: u8) -> Result<Vec<Event>, Refusal> {
    let mut events = Vec::new(alloc);
    for _ in 0..EVENTS {
        add_drawn(&mut events, draws, readers)?;
    }
    Ok(events)
}

// The machine's output at an event; at an attempt to publish, that of its last step.
fn of_machine(machine: &mut Machine, event: &Event) -> Result<Note, Refusal> {
    let mut note = machine.step(*event)?;
    for _ in 0..STEPS {
        if *event == Event::Publish && matches!(note, Note::Began | Note::Moved) {
            note = machine.step(Event::Writer)?;
        }
    }
    Ok(note)
}

// The result of the board's call for an event, as an output of the machine.
fn of_board(writer: &mut Writer, readers: &mut [Reader], event: &Event) -> Note {
    match event {
        Event::Submit(command) => match writer.submit(*command) {
            Ok(accepted) => Note::Accepted(accepted),
            Err(why) => Note::Refused(why),
        },
        Event::Publish => match attempt(writer) {
            Ok(front) => Note::Published(front),
            Err(reader) => Note::Busy(reader),
        },
        Event::Reader(number) => of_reader(readers, *number),
        Event::Writer => Note::Skipped,
    }
}

fn of_reader(readers: &mut [Reader], number: u8) -> Note {
    let Some(reader) = readers.get_mut(usize::from(number).saturating_sub(1)) else {
        return Note::Skipped;
    };
    match reader.step() {
        Some(reading) => Note::Read(reader.number(), reading.sheet),
        None => Note::Moved,
    }
}

// Whether the machine and the board give the same at an event.
fn is_alike(
    machine: &mut Machine,
    writer: &mut Writer,
    readers: &mut [Reader],
    event: &Event,
) -> Result<bool, Refusal> {
    let wanted = of_machine(machine, event)?;
    Ok(of_board(writer, readers, event) == wanted)
}

// Whether they give the same at each event.
fn are_alike(
    machine: &mut Machine,
    writer: &mut Writer,
    readers: &mut [Reader],
    events: &[Event],
) -> Result<bool, Refusal> {
    for event in events {
        if !is_alike(machine, writer, readers, event)? {
            return Ok(false);
        }
    }
    Ok(true)
}

// Whether the board gives the same as a new machine at each event.
fn is_as_machine(
    alloc: Global,
    writer: &mut Writer,
    readers: &mut [Reader],
    events: &[Event],
) -> Result<bool, Refusal> {
    let count = u8::try_from(readers.len()).unwrap_or_default();
    match Machine::start(register(alloc)?, count) {
        Ok(mut machine) => are_alike(&mut machine, writer, readers, events),
        Err((_, why)) => Err(why),
    }
}

// Catches a command, a publication or a step of the board that acts later than its call, or on words
// that others don't see: no clause orders calls of different holders in time.
#[test]
fn schedules_as_on_the_machine(rt: HostRuntime) -> Result<(), Fail> {
    let alloc = rt.alloc();
    for seed in 0..SCHEDULES {
        let mut draws = Draws::new(seed);
        let readers = 1 + draws.below(4) as u8;
        let events = schedule(alloc, &mut draws, readers)?;
        let alike = with_board(alloc, readers, |writer, readers| {
            is_as_machine(alloc, writer, readers.as_mut_slice(), &events)
        })?;
        assert!(rt; alike, "seed {seed}");
    }
    Ok(())
}
