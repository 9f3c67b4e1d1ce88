//! Tests of the running board on one thread.
use board_share::{Analyst, Reader, Writer, start};
use council_core::{Refusal, Sheet};
use fixtures::{open, register, seat};
use majority_rule::Majority;
use power_index::Indices;
use std::alloc::Global;
use std::sync::Wait;
use std::test::Fail;

// Runs `ask` on a new board over the register of `fixtures`. A function that owns a board takes
// long to prove, and one that borrows it does not.
pub(crate) fn with_board<T: Drop, F: FnOnce(&mut Writer, &mut Vec<Reader>) -> Result<T, Refusal>>(
    alloc: Global,
    readers: u8,
    ask: F,
) -> Result<T, Refusal>
    requires { F.IsAlwaysCallable ask }
{
    match start(alloc, register(alloc)?, readers) {
        Ok((mut writer, mut readers)) => ask(&mut writer, &mut readers),
        Err((_, why)) => Err(why),
    }
}

// Attempts to publish: the number published, or else the blocking reader.
pub(crate) fn attempt(writer: &mut Writer) -> Result<u32, u8> {
    match writer.try_publish() {
        Ok(front) => Ok(front),
        Err(busy) => Err(busy.reader),
    }
}

// Takes `count` steps, and returns the sheet of the last reading that ended.
pub(crate) fn steps(reader: &mut Reader, count: u32) -> Option<Sheet> {
    let mut sheet = None;
    for _ in 0..count {
        if let Some(reading) = reader.step() {
            sheet = Some(reading.sheet);
        }
    }
    sheet
}

pub(crate) fn read(reader: &mut Reader) -> Option<Sheet> {
    if !reader.at_rest() {
        return None;
    }
    Some(reader.read().sheet)
}

pub(crate) fn front_of(sheet: Option<Sheet>) -> Option<u32> {
    match sheet {
        Some(sheet) => Some(sheet.front()),
        None => None,
    }
}

fn first_of(readers: &mut [Reader]) -> Result<&mut Reader, Refusal> {
    readers.get_mut(0).ok_or(Refusal::BadReader)
}

// Whether each reader reads this front, at once and step by step.
pub(crate) fn all_read(readers: &mut [Reader], front: u32) -> bool {
    for reader in readers {
        let fronts = [front_of(read(reader)), front_of(steps(reader, 37))];
        if fronts != [Some(front); 2] {
            return false;
        }
    }
    true
}

// Whether each of three publications is read back by all readers.
fn are_read_back<R: Wait>(
    rt: &R,
    writer: &mut Writer,
    readers: &mut [Reader],
) -> Result<bool, Refusal> {
    for command in [open(1)?, seat("AAA", 1)?, open(2)?] {
        let accepted = writer.submit(command)?;
        if writer.publish(rt) != accepted || !all_read(readers, accepted) {
            return Ok(false);
        }
    }
    Ok(true)
}

// The indices by more than half of the votes that a new analyst returns.
pub(crate) fn asked(alloc: Global, reader: Reader) -> Result<Indices, Refusal> {
    if !reader.at_rest() {
        return Err(Refusal::BadReader);
    }
    match Analyst::new(alloc, reader) {
        Ok(mut analyst) => Ok(analyst.ask(Majority::Half)),
        Err((_, why)) => Err(why),
    }
}

fn publish_three<R: Wait>(
    rt: &R,
    alloc: Global,
    writer: &mut Writer,
    readers: &mut Vec<Reader>,
) -> Result<(bool, (u32, u64)), Refusal> {
    let all = are_read_back(rt, writer, readers.as_mut_slice())?;
    let last = readers.pop().ok_or(Refusal::BadReader)?;
    let indices = asked(alloc, last)?;
    Ok((all, (indices.front, indices.winning)))
}

// Catches a `start`, `submit` or `Analyst::new` that always returns OutOfMemory, a `publish` that
// never returns, and a publication that a later reading misses: contracts allow the first two, and
// no clause orders calls of different holders in time.
#[test]
fn each_publication_is_read_back(rt: HostRuntime) -> Result<(), Fail> {
    let alloc = rt.alloc();
    let got = with_board(
        alloc,
        4,
        |writer, readers| publish_three(&rt, alloc, writer, readers),
    )?;
    assert_eq!(rt; got, (true, (3, 2)));
    Ok(())
}

// Opens chairs 1 and 2: the result of an attempt to publish after each.
fn open_two(writer: &mut Writer) -> Result<[Result<u32, u8>; 2], Refusal> {
    let [first, second] = [open(1)?, open(2)?];
    let _one = writer.submit(first)?;
    let tried = attempt(writer);
    let _two = writer.submit(second)?;
    Ok([tried, attempt(writer)])
}

// The reader stops after `count` steps, two publications are attempted, the reader goes on, and a
// third is attempted: their results, and the front that the reader reads.
fn past_a_stopped_reader(
    writer: &mut Writer,
    reader: &mut Reader,
    count: u32,
) -> Result<([Result<u32, u8>; 3], Option<u32>), Refusal> {
    let early = steps(reader, count);
    let [one, two] = open_two(writer)?;
    let late = steps(reader, 37u32.saturating_sub(count));
    Ok(([one, two, attempt(writer)], front_of(late.or(early))))
}

// Catches a publication that misses a reader stopped after any of its 37 steps, is blocked by one
// at rest, or is still blocked after the reader went on: no clause orders calls of different holders in
// time.
#[test]
fn reader_stopped_at_each_step(rt: HostRuntime) -> Result<(), Fail> {
    for count in 0..38u32 {
        let (two, front) = match count {
            0 => (Ok(2), 2),
            1 => (Err(1), 1),
            37 => (Ok(2), 0),
            _ => (Err(1), 0),
        };
        let want = ([Ok(1), two, Ok(2)], Some(front));
        let got = with_board(rt.alloc(), 1, |writer, readers| {
            past_a_stopped_reader(writer, first_of(readers)?, count)
        })?;
        assert!(rt; got == want, "{count} steps");
    }
    Ok(())
}

// Reader 2 is dropped after `count` steps, and four publications are attempted: their results, and
// whether reader 1 reads the last one.
fn past_a_dropped_reader(
    writer: &mut Writer,
    readers: &mut Vec<Reader>,
    count: u32,
) -> Result<([Result<u32, u8>; 4], bool), Refusal> {
    let mut second = readers.pop().ok_or(Refusal::BadReader)?;
    let _none = steps(&mut second, count);
    drop(second);
    let [one, two] = open_two(writer)?;
    let tried = [one, two, attempt(writer), attempt(writer)];
    Ok((tried, all_read(readers, writer.published())))
}

// Catches a reader that takes steps when it is dropped, so that it blocks publications though it was
// at rest, or no longer blocks them though it was in a reading: no clause speaks of drops.
#[test]
fn reader_dropped_at_each_step(rt: HostRuntime) -> Result<(), Fail> {
    for count in 0..37u32 {
        let late = if count == 0 { Ok(2) } else { Err(2) };
        let want = ([Ok(1), late, late, late], true);
        let got = with_board(rt.alloc(), 2, |writer, readers| {
            past_a_dropped_reader(writer, readers, count)
        })?;
        assert!(rt; got == want, "{count} steps");
    }
    Ok(())
}

// Publishes one command and submits another by a writer that is then dropped: the readers.
fn without_a_writer(alloc: Global) -> Result<Vec<Reader>, Refusal> {
    match start(alloc, register(alloc)?, 2) {
        Ok((mut writer, readers)) => {
            publish_one(&mut writer)?;
            Ok(readers)
        }
        Err((_, why)) => Err(why),
    }
}

fn publish_one(writer: &mut Writer) -> Result<u32, Refusal> {
    let [first, second] = [open(1)?, open(2)?];
    let _one = writer.submit(first)?;
    let _published = attempt(writer);
    writer.submit(second)
}

// Catches a writer that publishes when it is dropped, or takes the readers' words with it: no clause
// speaks of drops.
#[test]
fn writer_dropped(rt: HostRuntime) -> Result<(), Fail> {
    let mut readers = without_a_writer(rt.alloc())?;
    assert!(rt; all_read(readers.as_mut_slice(), 1));
    Ok(())
}
