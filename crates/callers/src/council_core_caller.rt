//! A caller of `council_core`.
ghost use Rattle.std.specs.Prelude.{◌≡◌, Some, IfOk};
ghost use Rattle.council_core.specs.Sheets.{front_of, total_of, weight_word};

use council_core::{ChairId, Command, MAX_COMMANDS, MemberCode, Refusal, Register, Sheet, Votes};
use std::alloc::Global;

/// Starts a register with two members, opens chair 1 and moves the first member there. Returns the sheet after the two
/// commands, in which chair 1 casts 50 of 99 votes, or the first refusal.
pub fn first_sheet(alloc: Global) -> Result<Sheet, Refusal>
    ensures weight { IfOk result (λ sheet. weight_word sheet 1 ≡ Some 50) }
    ensures total { IfOk result (λ sheet. total_of sheet ≡ 99) }
    ensures front { IfOk result (λ sheet. front_of sheet ≡ 2) }
{
    let (first, second) = (MemberCode::new(b"AAA")?, MemberCode::new(b"BBB")?);
    let members = [(first, Votes::new(50)?), (second, Votes::new(49)?)];
    let chair = ChairId::new(1)?;
    let mut register = Register::start(alloc, &members, MAX_COMMANDS)?;
    register.apply(Command::Open(chair))?;
    register.apply(Command::Move(first, Some(chair)))?;
    Ok(register.sheet())
}
