//! A run of `serve` with pauses.
use crate::reading::pause;
use anyhow::{Result, bail};
use board_serve::{Gate, GateClosed, Place, serve};
use council_core::MAX_COMMANDS;
use fixtures::Draws;
use recording_io::{RecordingReader, RecordingWriter};
use std::alloc::Global;
use std::sync::Wait;
use std::thread::Threads;

const RECORDS: u32 = 600;

// A gate at which each thread pauses for as long as the seed and the place say.
#[derive(Clone, Copy)]
struct PausingGate(u64);

impl Gate for PausingGate {
    fn pass(&self, at: Place) -> std::result::Result<(), GateClosed> {
        let (thread, number) = match at {
            Place::BeforePublish(k) | Place::AfterPublish(k) => (0, k),
            Place::BeforeReading(reader, k) | Place::AfterReading(reader, k) => (reader, k),
        };
        let place = u64::from(number) * 4 + u64::from(thread);
        pause(&mut Draws::new(self.0.wrapping_add(place)));
        Ok(())
    }
}

fn record(draws: &mut Draws) -> &'static str {
    match draws.below(10) {
        0 => "open,1\n",
        1 => "open,2\n",
        2 => "close,1\n",
        3 => "move,AAA,1\n",
        4 => "move,BBB,2\n",
        5 => "votes,AAA,25\n",
        6 | 7 => "publish\n",
        8 => "read,1,half\n",
        _ => "read,2,quorum\n",
    }
}

// An input with `RECORDS` records of a script.
fn input(alloc: Global, draws: &mut Draws) -> Result<String> {
    let mut text = String::new(alloc);
    text.push_str("member,votes\nAAA,10\nBBB,20\nscript\n")?;
    for _ in 0..RECORDS {
        text.push_str(record(draws))?;
    }
    Ok(text)
}

// Serves an input drawn from the seed, with pauses of all threads. `serve` audits the readings.
pub(crate) fn serve_drawn<R: Threads + Wait + Sync>(
    rt: &R,
    alloc: Global,
    seed: u64,
) -> Result<()> {
    let text = input(alloc, &mut Draws::new(seed))?;
    let mut input = RecordingReader::new(text.as_bytes());
    let (gate, mut out) = (PausingGate(seed), Vec::new(alloc));
    let mut out = RecordingWriter::new(&mut out);
    match serve(rt, alloc, &gate, &mut input, &mut out, MAX_COMMANDS) {
        Ok(_) => Ok(()),
        Err(fault) => bail!("serve: fault {}", fault.code),
    }
}
