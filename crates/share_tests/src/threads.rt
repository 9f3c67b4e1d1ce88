//! Tests of the running board in several threads.
use crate::boards::{read, steps, with_board};
use board_share::{Reader, Writer, audit};
use council_core::{Refusal, Sheet};
use fixtures::{set_votes, two_members};
use std::alloc::Global;
use std::process::Abort;
use std::sync::Wait;
use std::sync::atomic::{AtomicU64, Ordering};
use std::test::Fail;
use std::thread;
use std::thread::{Threads, join};

const LAST: u32 = 500;

// A limit, so that a failing test ends. A reader takes ten million readings while a busy machine
// delays the writer for a second.
const MOST_READINGS: u32 = 1_000_000_000;

// Every reader reads one of this many publications, so that they take place at once.
const AHEAD: u32 = 50;

// The front that each of four readers read last.
type Fronts = [AtomicU64; 4];

// Waits until every reader has read this publication or a later one.
fn wait_for_readers<R: Wait>(rt: &R, fronts: &Fronts, least: u32) {
    for _ in rt.forever() {
        let low = fronts
            .iter()
            .any(|front| front.load(Ordering::SeqCst) < u64::from(least));
        if !low {
            return;
        }
        thread::yield_now();
    }
}

// Sets AAA's votes to 0, 1, 2 and so on, and publishes each: the cuts.
fn publish_each<R: Wait>(
    rt: &R,
    alloc: Global,
    writer: &mut Writer,
    fronts: &Fronts,
) -> Result<Vec<u32>, Refusal> {
    let mut cuts = Vec::new(alloc);
    for votes in 0..LAST {
        writer.submit(set_votes("AAA", u64::from(votes))?)?;
        cuts.push(writer.publish(rt))?;
        wait_for_readers(rt, fronts, votes.saturating_sub(AHEAD));
    }
    Ok(cuts)
}

// Reads up to the last publication: each sheet that isn't the same as the one before it.
fn follow(
    alloc: Global,
    reader: &mut Reader,
    by_steps: bool,
    front: &AtomicU64,
) -> Result<Vec<Sheet>, Refusal> {
    let mut sheets: Vec<Sheet> = Vec::new(alloc);
    for _ in 0..MOST_READINGS {
        let sheet = if by_steps {
            steps(reader, 37)
        } else {
            read(reader)
        };
        let sheet = sheet.ok_or(Refusal::BadReader)?;
        if sheets.last() != Some(&sheet) {
            sheets.push(sheet)?;
            front.store(u64::from(sheet.front()), Ordering::SeqCst);
        }
        if sheet.front() == LAST {
            return Ok(sheets);
        }
    }
    Ok(sheets)
}

type Read = Result<Vec<Sheet>, Refusal>;

// The sheets of four readers, each in a separate thread, of whom two read step by step.
fn follow_by_four<R: Threads + Sync>(
    rt: &R,
    alloc: Global,
    readers: &mut [Reader],
    fronts: &Fronts,
) -> Result<[Read; 4], Refusal> {
    let [w, x, y, z] = fronts;
    match readers {
        [a, b, c, d] => {
            let (left, right) = join(
                rt,
                || join(
                    rt,
                    || follow(alloc, a, false, w),
                    || follow(alloc, b, true, x),
                ),
                || join(
                    rt,
                    || follow(alloc, c, false, y),
                    || follow(alloc, d, true, z),
                ),
            );
            Ok([left.0, left.1, right.0, right.1])
        }
        _ => Err(Refusal::BadReader),
    }
}

// The sheets of all readers, if none failed.
fn listed(alloc: Global, reads: [Read; 4]) -> Result<Vec<Vec<Sheet>>, Refusal> {
    let mut readings = Vec::new(alloc);
    for sheets in reads {
        readings.push(sheets?)?;
    }
    Ok(readings)
}

// Publishes in one thread while four others read, and audits what they read.
fn publish_beside_four<R: Threads + Wait + Sync + Abort>(
    rt: &R,
    alloc: Global,
    writer: &mut Writer,
    readers: &mut [Reader],
) -> Result<(), Refusal> {
    let fronts = [0u64; 4].map(AtomicU64::new);
    let (cuts, reads) = join(
        rt,
        || publish_each(rt, alloc, writer, &fronts),
        || follow_by_four(rt, alloc, readers, &fronts),
    );
    let readings = listed(alloc, reads?)?;
    let found = audit(alloc, &two_members()?, writer.journal(), &cuts?, &readings);
    assert_eq!(rt; found, Ok(()));
    Ok(())
}

// Catches a reading in real threads that no publication explains, that is older than the one before,
// or that never comes to the last publication, and threads that don't run at once: the proofs assume
// that steps on the shared words act one after another, and speak of no time.
#[test]
fn four_readers_beside_publications(rt: HostRuntime) -> Result<(), Fail> {
    let alloc = rt.alloc();
    with_board(
        alloc,
        4,
        |writer, readers| publish_beside_four(&rt, alloc, writer, readers.as_mut_slice()),
    )?;
    Ok(())
}
