//! The work of a reader's thread.
use crate::turns::Turns;
use board_share::{Analyst, Reader};
use council_core::{Refusal, Sheet};
use fixtures::Draws;
use majority_rule::Majority;
use power_index::Evaluator;
use std::alloc::Global;
use std::thread;

// The number of publications, and of the readings of each reader.
pub(crate) const TURNS: u64 = 500;

// No thread is more than this many publications or readings ahead of another.
pub(crate) const AHEAD: u64 = 20;

// Gives way to another thread, draws numbers for a while, or goes on at once.
pub(crate) fn pause(draws: &mut Draws) {
    if draws.below(8) == 0 {
        thread::yield_now();
    }
    let most = if draws.below(4) == 0 { 1_000 } else { 1 };
    for _ in 0..draws.below(most) {
        let _drawn = draws.below(2);
    }
}

pub(crate) fn at_once(mut reader: Reader) -> Result<(Reader, Sheet), Refusal> {
    if !reader.at_rest() {
        return Err(Refusal::BadReader);
    }
    let sheet = reader.read().sheet;
    Ok((reader, sheet))
}

fn by_steps(mut reader: Reader, draws: &mut Draws) -> Result<(Reader, Sheet), Refusal> {
    for _ in 0..36u32 {
        if reader.step().is_some() {
            return Err(Refusal::BadReader);
        }
        pause(draws);
    }
    let reading = reader.step().ok_or(Refusal::BadReader)?;
    Ok((reader, reading.sheet))
}

// An analyst's reading, whose indices must be those of a new evaluator.
fn by_an_analyst(
    alloc: Global,
    reader: Reader,
    majority: Majority,
) -> Result<(Reader, Sheet), Refusal> {
    if !reader.at_rest() {
        return Err(Refusal::BadReader);
    }
    let mut analyst = Analyst::new(alloc, reader).map_err(|(_reader, why)| why)?;
    let indices = analyst.ask(majority);
    let sheet = analyst.sheet();
    let mut evaluator = Evaluator::new(alloc)?;
    let _changed = evaluator.set(&sheet);
    if indices != evaluator.evaluate(majority) {
        return Err(Refusal::Mismatch);
    }
    Ok((analyst.into_reader(), sheet))
}

fn read_one(alloc: Global, reader: Reader, draws: &mut Draws) -> Result<(Reader, Sheet), Refusal> {
    let drawn = draws.below(16);
    if let Some(majority) = Majority::ALL.get(drawn as usize) {
        return by_an_analyst(alloc, reader, *majority);
    }
    if drawn < 10 {
        by_steps(reader, draws)
    } else {
        at_once(reader)
    }
}

// The sheets of `TURNS` readings, and the reader at the end.
pub(crate) fn read_often(
    alloc: Global,
    mut reader: Reader,
    mut draws: Draws,
    turns: &Turns,
) -> Result<(Reader, Vec<Sheet>), Refusal> {
    let mut sheets = Vec::new(alloc);
    for turn in 0..TURNS {
        let (back, sheet) = read_one(alloc, reader, &mut draws)?;
        reader = back;
        sheets.push(sheet)?;
        turns.come_to(usize::from(reader.number()), turn, AHEAD);
        pause(&mut draws);
    }
    Ok((reader, sheets))
}
