//! A writer and four readers in threads, and an audit of what was read.
use crate::reading::{AHEAD, TURNS, at_once, pause, read_often};
use crate::turns::Turns;
use anyhow::bail;
use board_share::{Reader, Writer, audit, start};
use council_core::{Refusal, Sheet};
use fixtures::{Draws, register, two_members};
use std::alloc::{AllocError, Global};
use std::sync::Wait;
use std::thread::{Threads, join, map_vec};

// Submits up to three commands, of which some are refused.
fn submit_some(writer: &mut Writer, draws: &mut Draws) {
    for _ in 0..draws.below(4) {
        if let Ok(command) = draws.command() {
            let _answer = writer.submit(command);
        }
    }
}

// Attempts a publication up to three times, with pauses, and then waits for it.
fn publish<R: Wait>(rt: &R, writer: &mut Writer, draws: &mut Draws) -> u32 {
    for _ in 0..draws.below(4) {
        if let Ok(front) = writer.try_publish() {
            return front;
        }
        pause(draws);
    }
    writer.publish(rt)
}

// Makes `TURNS` publications: the number that each returned.
fn publish_often<R: Wait>(
    rt: &R,
    alloc: Global,
    writer: &mut Writer,
    mut draws: Draws,
    turns: &Turns,
) -> Result<Vec<u32>, AllocError> {
    let mut cuts = Vec::new(alloc);
    for turn in 0..TURNS {
        submit_some(writer, &mut draws);
        cuts.push(publish(rt, writer, &mut draws))?;
        turns.come_to(0, turn, AHEAD);
        pause(&mut draws);
    }
    Ok(cuts)
}

type Read = Result<(Reader, Vec<Sheet>), Refusal>;

// Reads with draws of its own, and then no thread waits for this one.
fn read_by_one(alloc: Global, reader: Reader, seed: u64, turns: &Turns) -> Read {
    let place = usize::from(reader.number());
    let draws = Draws::new(seed.wrapping_mul(5).wrapping_add(place as u64));
    let read = read_often(alloc, reader, draws, turns);
    turns.end(place);
    read
}

// What each reader read, each in a separate thread.
fn read_by_all<R: Threads + Sync>(
    rt: &R,
    readers: Vec<Reader>,
    alloc: Global,
    seed: u64,
    turns: &Turns,
) -> Result<Vec<Read>, AllocError> {
    map_vec(
        rt,
        readers,
        &|reader: Reader| { read_by_one(alloc, reader, seed, turns) },
    )
}

// The sheets that each reader read, if each reads the last publication now.
fn brought_back(alloc: Global, reads: Vec<Read>, last: u32) -> anyhow::Result<Vec<Vec<Sheet>>> {
    let mut readings = Vec::new(alloc);
    for read in reads {
        let (reader, sheets) = read?;
        let (_reader, sheet) = at_once(reader)?;
        if sheet.front() != last {
            bail!("a reader missed the last publication");
        }
        readings.push(sheets)?;
    }
    Ok(readings)
}

fn share<R: Threads + Wait + Sync>(
    rt: &R,
    alloc: Global,
    writer: &mut Writer,
    readers: Vec<Reader>,
    seed: u64,
) -> anyhow::Result<()> {
    let (turns, draws) = (Turns::new(), Draws::new(seed.wrapping_mul(5)));
    let (cuts, reads) = join(
        rt,
        || publish_often(rt, alloc, writer, draws, &turns),
        || read_by_all(rt, readers, alloc, seed, &turns),
    );
    let readings = brought_back(alloc, reads?, writer.published())?;
    audit(alloc, &two_members()?, writer.journal(), &cuts?, &readings)?;
    Ok(())
}

// Runs a board of this seed.
pub(crate) fn share_drawn<R: Threads + Wait + Sync>(
    rt: &R,
    alloc: Global,
    seed: u64,
) -> anyhow::Result<()> {
    match start(alloc, register(alloc)?, 4) {
        Ok((mut writer, readers)) => share(rt, alloc, &mut writer, readers, seed),
        Err((_, why)) => Err(why.into()),
    }
}
