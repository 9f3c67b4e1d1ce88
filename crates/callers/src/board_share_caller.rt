//! A caller of `board_share`.
ghost use Rattle.std.specs.Prelude.{◌≤◌, IfOk};
ghost use Rattle.council_core.specs.Sheets.{front_of};
ghost use Rattle.board_share.specs.Readers.{IsLegalSheet};

use board_share::start;
use council_core::{Command, Refusal, Register, Sheet};
use std::alloc::Global;

/// Starts a board with one reader, and reads before and after `command` is published, on one thread. Both sheets are
/// sheets of legal registers, and the second is not older than the first.
pub fn read_twice(
    alloc: Global,
    register: Register,
    command: Command,
) -> Result<(Sheet, Sheet), Refusal>
    ensures legal { IfOk result
        (λ r. IsLegalSheet register.opening r.0 × IsLegalSheet register.opening r.1) }
    ensures not_older { IfOk result (λ r. front_of r.0 ≤ front_of r.1) }
{
    let (mut writer, mut readers) = match start(alloc, register, 1) {
        Ok(board) => board,
        Err((_, why)) => return Err(why),
    };
    let Some(mut reader) = readers.pop() else {
        unreachable!();
    };
    let before = reader.read().sheet;
    writer.submit(command)?;
    if writer.try_publish().is_err() {
        return Err(Refusal::Busy);
    }
    let after = reader.read().sheet;
    Ok((before, after))
}
