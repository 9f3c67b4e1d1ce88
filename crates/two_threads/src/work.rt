//! The work of each thread.
ghost use Rattle.std.specs.Prelude.{◌≡◌, [], vec_len, IfOk};
ghost use Rattle.board_share.specs.Readers.{IsLegalRecord};
ghost use Rattle.two_threads.specs.Sessions.{IsNew};

use anyhow::Result;
use board_share::{Reader, Writer};
use council_core::{Command, Sheet};
use std::alloc::Global;
use std::sync::Wait;

// The number of readings.
pub(crate) const READINGS: u32 = 100;

// The result of the writer's thread: the accepted commands, and the number returned by each
// publication.
#[derive(Drop)]
pub(crate) struct WrittenSession {
    pub(crate) journal: Vec<Command>,
    pub(crate) cuts: Vec<u32>,
}

// Submits and publishes each command, and waits for readers that are in the middle of a reading.
pub(crate) fn write_all<R: Wait>(
    rt: &R,
    alloc: Global,
    mut writer: Writer,
    commands: &[Command],
) -> Result<WrittenSession>
    requires new { writer.ledger.journal ≡ [] }
    ensures journal { IfOk result (λ w. w.journal.items ≡ commands.now) }
{
    let mut cuts = Vec::new(alloc);
    for command in commands {
        let _accepted = writer.submit(*command)?;
        cuts.push(writer.publish(rt))?;
    }
    let mut journal = Vec::new(alloc);
    journal.extend_from_slice(writer.journal())?;
    Ok(WrittenSession { journal, cuts })
}

// Reads `READINGS` times. The sheets are the record of a legal register, and their fronts never
// decrease.
pub(crate) fn read_often(alloc: Global, mut reader: Reader) -> Result<Vec<Sheet>>
    requires new { IsNew reader }
    ensures record { IfOk result (λ sheets. IsLegalRecord reader.opening sheets.items) }
    ensures count { IfOk result (λ sheets. vec_len sheets ≡ READINGS) }
{
    let mut sheets = Vec::new(alloc);
    for _reading in 0..READINGS {
        sheets.push(reader.read().sheet)?;
    }
    Ok(sheets)
}
