//! Worked examples of the two-copy machine and of audits.
use board_audits::{AuditFault, audit};
use council_core::{Command, FRONT, Refusal, SHEET_WORDS, Sheet, TOTAL};
use fixtures::{open, register, seat, two_members};
use std::alloc::{AllocError, Global};
use std::test::Fail;
use two_copy_steps::{Event, Machine, Note, READERS, run};

// The sheet of the two members with this word of chair 1 and this front.
fn sheet(word: u64, front: u64) -> Result<Sheet, Refusal> {
    let mut words = [0; SHEET_WORDS];
    words[0] = word;
    words[TOTAL] = 30;
    words[FRONT] = front;
    Sheet::from_words(&words)
}

fn repeat(events: &mut Vec<Event>, more: &[Event], times: usize) -> Result<(), AllocError> {
    for _ in 0..times {
        events.extend_from_slice(more)?;
    }
    Ok(())
}

// Events in which a reader that has loaded side blocks the second publication, and reads the sheet
// before the first.
fn schedule(alloc: Global) -> Result<Vec<Event>, Refusal> {
    let opens = [Event::Submit(open(1)?), Event::Publish];
    let seats = [Event::Submit(seat("AAA", 1)?), Event::Publish];
    let mut events = Vec::new(alloc);
    repeat(&mut events, &[Event::Reader(1)], 2)?;
    repeat(&mut events, &opens, 1)?;
    repeat(&mut events, &[Event::Writer], 35)?;
    repeat(&mut events, &seats, 1)?;
    repeat(&mut events, &[Event::Writer], 1)?;
    repeat(&mut events, &[Event::Reader(1)], 35)?;
    repeat(&mut events, &[Event::Publish], 1)?;
    repeat(&mut events, &[Event::Writer], 36)?;
    repeat(&mut events, &[Event::Reader(1)], 37)?;
    Ok(events)
}

// The outputs of the events, without those of steps that end nothing.
fn outputs(alloc: Global, events: &[Event]) -> Result<Vec<Note>, Refusal> {
    let notes = match run(alloc, register(alloc)?, 1, events) {
        Ok(log) => log.notes,
        Err(fault) => return Err(fault.why),
    };
    let mut outputs = Vec::new(alloc);
    for note in notes.as_slice() {
        if *note != Note::Moved {
            outputs.push(*note)?;
        }
    }
    Ok(outputs)
}

// Catches a `run` that always returns OutOfMemory, which its contract allows. This is the schedule
// that docs/ARCHITECTURE.md goes through.
#[test]
fn reader_blocks_a_publication(rt: HostRuntime) -> Result<(), Fail> {
    let outputs = outputs(rt.alloc(), &schedule(rt.alloc())?)?;
    let want = [
        Note::Accepted(1),
        Note::Began,
        Note::Published(1),
        Note::Accepted(2),
        Note::Began,
        Note::Busy(1),
        Note::Read(1, sheet(0, 0)?),
        Note::Began,
        Note::Published(2),
        Note::Read(1, sheet(11, 2)?),
    ];
    assert_eq!(rt; outputs.as_slice(), want.as_slice());
    Ok(())
}

// Whether each event, one step at a time, has the output of the same place.
fn gives(machine: &mut Machine, events: &[Event], notes: &[Note]) -> Result<bool, Refusal> {
    for (event, note) in events.iter().zip(notes) {
        if machine.step(*event)? != *note {
            return Ok(false);
        }
    }
    Ok(true)
}

// Catches a `Machine::start` or a `step` that always answers OutOfMemory.
#[test]
fn five_events(rt: HostRuntime) -> Result<(), Fail> {
    let events = [
        Event::Submit(open(1)?),
        Event::Reader(2),
        Event::Writer,
        Event::Publish,
        Event::Reader(1),
    ];
    let notes = [
        Note::Accepted(1),
        Note::Skipped,
        Note::Skipped,
        Note::Began,
        Note::Moved,
    ];
    let (_, why) = match Machine::start(register(rt.alloc())?, READERS as u8 + 1) {
        Ok(_) => return Err(Refusal::BadReader.into()),
        Err(refused) => refused,
    };
    assert_eq!(rt; why, Refusal::BadLimit);
    match Machine::start(register(rt.alloc())?, 1) {
        Ok(mut machine) => assert!(rt; gives(&mut machine, &events, &notes)?),
        Err((_, why)) => return Err(why.into()),
    }
    Ok(())
}

// The number of outputs of the first `count` events, and the number of published commands.
fn cut_after(alloc: Global, events: &[Event], count: usize) -> Result<(usize, u32), Refusal> {
    match run(
        alloc,
        register(alloc)?,
        1,
        events.get(..count).unwrap_or_default(),
    ) {
        Ok(log) => Ok((log.notes.as_slice().len(), log.machine.published())),
        Err(fault) => Err(fault.why),
    }
}

// Catches a `run` that answers OutOfMemory at some number of events: its contract always allows it.
#[test]
fn events_cut_anywhere(rt: HostRuntime) -> Result<(), Fail> {
    let events = schedule(rt.alloc())?;
    for count in 0..=events.len() {
        let (notes, published) = cut_after(rt.alloc(), events.as_slice(), count)?;
        assert!(rt; notes == count && published <= 2, "{count} events");
    }
    Ok(())
}

// The finding of an audit of what one reader read.
fn audited(
    alloc: Global,
    journal: &[Command],
    cuts: &[u32],
    sheets: &[Sheet],
) -> Result<Result<(), AuditFault>, Refusal> {
    let readings = vec![in alloc; Vec::from_slice(alloc, sheets)?]?;
    Ok(audit(alloc, &two_members()?, journal, cuts, &readings))
}

// Catches an audit that returns OutOfMemory in place of one of its findings, which its contract
// allows of each of these.
#[test]
fn each_finding(rt: HostRuntime) -> Result<(), Fail> {
    let alloc = rt.alloc();
    let [opens, seats] = [open(1)?, seat("AAA", 1)?];
    let [before, opened, seated] = [sheet(0, 0)?, sheet(1, 1)?, sheet(11, 2)?];
    let legal = audited(alloc, &[opens, seats], &[1, 2], &[before, opened, seated])?;
    let refused = audited(alloc, &[seats], &[], &[])?;
    let falling = audited(alloc, &[opens, seats], &[2, 1], &[])?;
    let no_cut = audited(alloc, &[opens, seats], &[2], &[opened])?;
    let older = audited(alloc, &[opens, seats], &[1, 2], &[seated, before])?;
    assert!(rt; legal == Ok(()));
    assert!(rt; refused == Err(AuditFault::BadJournal(1)));
    assert!(rt; falling == Err(AuditFault::BadCuts(2)));
    assert!(rt;
        no_cut
            == Err(AuditFault::Mismatch {
                reader: 1,
                place: 1
            })
    );
    assert!(rt;
        older
            == Err(AuditFault::Mismatch {
                reader: 1,
                place: 2
            })
    );
    Ok(())
}
