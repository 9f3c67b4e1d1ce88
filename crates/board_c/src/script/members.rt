//! Checks and writes the members of an input.
ghost use Rattle.std.specs.Prelude.{◌≡◌, ◌≤◌, ◌<◌, ◌+◌, ◌^◌, [], Ok, length, map, IfOk, IfErr};
ghost use Rattle.council_core.specs.Ledgers.{start_verdict};
ghost use Rattle.c_values.specs.Given.{entry_as};
ghost use Rattle.board_c.specs.Written.{ChecksOpening, overlaid};

use crate::lists::put;
use board_text::{Limits, Stop};
use c_values::{BoardEntry, entry_for};
use council_core::{MemberCode, Register, Votes};
use std::alloc::Global;

// Whether a register can start with these members.
pub(crate) fn check_opening(
    alloc: Global,
    members: &[(MemberCode, Votes)],
    limits: Limits,
) -> Result<(), Stop>
    ensures checked { ChecksOpening (start_verdict members.now limits.journal) result }
{
    let _register = Register::start(alloc, members, limits.journal)?;
    Ok(())
}

// Writes the members to the start of `entries`, as many as fit.
pub(crate) fn write_members(members: &[(MemberCode, Votes)], entries: &mut [BoardEntry])
    ensures { entries.new ≡ overlaid (map entry_as members.now) entries.old }
{
    for index in 0..members.len() {
        put(entries, index, entry_for(&members[index]));
    }
}
