//! Tests that a register grows: `start` and `apply` may answer OutOfMemory at any size.
use council_core::{
    ChairId, Command, MAX_COMMANDS, MAX_VOTES, MemberCode, Refusal, Register, Votes,
};
use std::alloc::Global;
use std::test::Fail;

// The member with this number, from 0 to 255: AAA, AAB and so on, with the most votes.
fn numbered(number: u8) -> Result<(MemberCode, Votes), Refusal> {
    let code = MemberCode::new(&[b'A', b'A' + number / 26, b'A' + number % 26])?;
    Ok((code, Votes::new(MAX_VOTES)?))
}

/// 256 members, as many as a register can have, each with 2^40 votes.
pub(crate) fn all_members(alloc: Global) -> Result<Vec<(MemberCode, Votes)>, Refusal> {
    let mut members = Vec::new(alloc);
    for number in 0..=255 {
        members.push(numbered(number)?)?;
    }
    Ok(members)
}

// Starts a register of the first `count` members, and admits the next.
fn start_and_admit(
    alloc: Global,
    members: &[(MemberCode, Votes)],
    count: usize,
) -> Result<(), Refusal> {
    let mut register = Register::start(alloc, members.get(..count).unwrap_or_default(), 1)?;
    if let Some((code, votes)) = members.get(count) {
        register.apply(Command::Admit(*code, *votes))?;
    }
    Ok(())
}

// Catches a `start` or an `Admit` that answers OutOfMemory at some number of members though there
// is memory, as a second list of fixed room would: the contracts always allow it.
#[test]
fn each_number_of_members(rt: HostRuntime) -> Result<(), Fail> {
    let members = all_members(rt.alloc())?;
    for count in 0..=256 {
        start_and_admit(rt.alloc(), members.as_slice(), count)?;
    }
    Ok(())
}

// All eight kinds of command, after which AAA is as before: in no chair, with 2^40 votes.
fn round() -> Result<[Command; 9], Refusal> {
    let chair = ChairId::new(1)?;
    let (code, votes) = numbered(0)?;
    Ok([
        Command::Open(chair),
        Command::Move(code, Some(chair)),
        Command::SetVotes(code, Votes::new(7)?),
        Command::Suspend(code),
        Command::Restore(code),
        Command::Move(code, None),
        Command::Close(chair),
        Command::Withdraw(code),
        Command::Admit(code, votes),
    ])
}

// The number of repetitions of the round: 100,008 commands.
const ROUNDS: u32 = 11_112;

fn apply_all(register: &mut Register, commands: &[Command]) -> Result<(), Refusal> {
    for command in commands {
        register.check(*command)?;
        register.apply(*command)?;
    }
    Ok(())
}

// The number of commands that a register of all members has accepted after the rounds.
fn go_round(alloc: Global, members: &[(MemberCode, Votes)]) -> Result<u32, Refusal> {
    let mut register = Register::start(alloc, members, MAX_COMMANDS)?;
    let commands = round()?;
    for _ in 0..ROUNDS {
        apply_all(&mut register, &commands)?;
    }
    Ok(register.accepted())
}

// Catches an `apply` that answers OutOfMemory at some length of the journal though there is memory:
// its contract always allows it.
#[test]
fn accepts_many_commands(rt: HostRuntime) -> Result<(), Fail> {
    let members = all_members(rt.alloc())?;
    assert_eq!(rt; go_round(rt.alloc(), members.as_slice())?, 9 * ROUNDS);
    Ok(())
}
