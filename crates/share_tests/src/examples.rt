//! Worked examples of the running board on one thread, for readers.
use crate::boards::{asked, front_of, read, with_board};
use board_share::{Reader, Writer};
use council_core::Refusal;
use fixtures::{open, seat};
use power_index::Indices;
use std::alloc::Global;
use std::sync::Wait;
use std::test::Fail;

// Opens chair 1 and moves AAA into it, publishing and reading in between: what each call returns.
fn open_and_seat<R: Wait>(
    rt: &R,
    writer: &mut Writer,
    reader: &mut Reader,
) -> Result<[Option<u32>; 7], Refusal> {
    let opened = writer.submit(open(1)?)?;
    let before = front_of(read(reader));
    let published = writer.publish(rt);
    let after = front_of(read(reader));
    let seated = writer.submit(seat("AAA", 1)?)?;
    let [all, again] = [writer.publish(rt), writer.publish(rt)];
    Ok([
        Some(opened),
        before,
        Some(published),
        after,
        Some(seated),
        Some(all),
        Some(again),
    ])
}

// The same, and then a question by an analyst.
fn open_and_ask<R: Wait>(
    rt: &R,
    alloc: Global,
    writer: &mut Writer,
    readers: &mut Vec<Reader>,
) -> Result<([Option<u32>; 7], Indices), Refusal> {
    let mut reader = readers.pop().ok_or(Refusal::BadReader)?;
    let calls = open_and_seat(rt, writer, &mut reader)?;
    Ok((calls, asked(alloc, reader)?))
}

// Catches a `start`, `submit` or `Analyst::new` that always answers OutOfMemory.
#[test]
fn board_on_one_thread(rt: HostRuntime) -> Result<(), Fail> {
    let alloc = rt.alloc();
    let (calls, indices) = with_board(
        alloc,
        2,
        |writer, readers| open_and_ask(&rt, alloc, writer, readers),
    )?;
    let swings = indices.rows.as_slice().first().map(|row| row.swings);
    assert!(rt; calls == [1, 0, 1, 1, 2, 2, 2].map(Some));
    assert_eq!(rt; (indices.front, indices.quota), (2, 6));
    assert_eq!(rt;
        (indices.winning, indices.coalitions, swings),
        (1, 2, Some(1))
    );
    Ok(())
}

// Whether 36 steps return nothing and leave the reader in its reading, and the next ends it with
// this front.
fn reads_in_37_steps(reader: &mut Reader, front: u32) -> bool {
    for _ in 0..36u32 {
        if reader.step().is_some() || reader.at_rest() {
            return false;
        }
    }
    match reader.step() {
        Some(reading) => reading.sheet.front() == front && reader.at_rest(),
        None => false,
    }
}

fn publish_and_step<R: Wait>(
    rt: &R,
    writer: &mut Writer,
    readers: &mut Vec<Reader>,
) -> Result<bool, Refusal> {
    let mut reader = readers.pop().ok_or(Refusal::BadReader)?;
    let front = writer.submit(open(1)?)?;
    let _published = writer.publish(rt);
    Ok(reads_in_37_steps(&mut reader, front))
}

// Catches a reading that misses the publication before it: no clause orders calls of different
// holders in time.
#[test]
fn reader_in_37_steps(rt: HostRuntime) -> Result<(), Fail> {
    assert!(rt;
        with_board(
            rt.alloc(),
            2,
            |writer, readers| publish_and_step(&rt, writer, readers)
        )?
    );
    Ok(())
}
