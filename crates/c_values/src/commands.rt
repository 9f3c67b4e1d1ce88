//! Commands as a caller in C gives and gets them.
ghost use Rattle.std.specs.Prelude.{◌≡◌, Ok};
ghost use Rattle.council_core.specs.Commands.{form_of_parts};
ghost use Rattle.c_values.specs.Given.{command_as, given_command, given_parts, struct_with};

use crate::codes::{
    NO_CODE, chair_for, chair_of, code_for, code_of, seat_for, seat_of, votes_for, votes_of,
};
use council_core::{ChairId, Command, CommandKind, Form, Parts, Refusal};

/// The kind of a script's item that publishes: no command.
pub const PUBLISH: u32 = 8;
/// The kind of a script's item that reads: no command.
pub const READ: u32 = 9;

/// A command, as `struct board_command` in `board.h`.
#[repr(C)]
#[derive(Clone, Copy, Debug, PartialEq, Eq)]
pub struct BoardCommand {
    /// The number of the command's kind, as `CommandKind::number` has it.
    pub kind: u32,
    /// The member's code, three capitals and a 0, of a command that names a member.
    pub code: [u8; 4],
    /// The number of the chair, from 1 to 32, of a command that names one. A move may have 0: to no
    /// chair.
    pub chair: u64,
    /// The votes that the command sets, if it sets votes.
    pub votes: u64,
}

// The parts of this form that a struct gives. Other parts aren't looked at.
fn parts_of(form: Form, command: &BoardCommand) -> Result<Parts, Refusal>
    ensures { result ≡ given_parts form command.now }
{
    match form {
        Form::Chair => Ok(Parts::Chair(chair_of(command.chair)?)),
        Form::Member => Ok(Parts::Member(code_of(&command.code)?)),
        Form::Seat => {
            let code = code_of(&command.code)?;
            Ok(Parts::Seat(code, seat_of(command.chair)?))
        }
        Form::Votes => {
            let code = code_of(&command.code)?;
            Ok(Parts::Votes(code, votes_of(command.votes)?))
        }
    }
}

/// The command that a struct gives. Only the parts of its kind are looked at.
///
/// # Errors
///
/// `Refusal::BadRecord` for a number that is no kind of command; otherwise `Refusal::BadMember`, then
/// `Refusal::BadChair` or `Refusal::VotesTooLarge`, for a part of the kind that is out of range.
pub fn command_of(command: &BoardCommand) -> Result<Command, Refusal>
    ensures given { result ≡ given_command command.now }
{
    // The prover needs this line, since parts have a chair.
    let _nowhere: Option<ChairId> = None;
    // The parts have the kind's form, so there is a command.
    let kind = CommandKind::from_number(command.kind).ok_or(Refusal::BadRecord)?;
    let parts = parts_of(kind.form(), command)?;
    Command::from_parts(kind, parts).ok_or(Refusal::BadRecord)
}

// A struct with these fields.
fn fields_with(kind: u32, code: [u8; 4], chair: u64, votes: u64) -> BoardCommand
    ensures { result ≡ record { kind = kind; code = code; chair = chair; votes = votes } }
{
    BoardCommand {
        kind,
        code,
        chair,
        votes,
    }
}

// The struct of a kind with these parts.
fn struct_for(kind: u32, parts: Parts) -> BoardCommand
    ensures written { result ≡ struct_with kind parts }
    ensures read_back { given_parts (form_of_parts parts) result ≡ Ok parts }
{
    match parts {
        Parts::Chair(chair) => fields_with(kind, NO_CODE, chair_for(chair), 0),
        Parts::Member(code) => fields_with(kind, code_for(&code), 0, 0),
        Parts::Seat(code, seat) => fields_with(kind, code_for(&code), seat_for(seat), 0),
        Parts::Votes(code, votes) => fields_with(kind, code_for(&code), 0, votes_for(votes)),
    }
}

/// The struct that gives a command. Parts that its kind doesn't have are 0.
pub fn command_for(command: &Command) -> BoardCommand
    ensures written { result ≡ command_as command.now }
    ensures read_back { given_command result ≡ Ok command.now }
{
    let (kind, parts) = command.into_parts();
    struct_for(kind.number(), parts)
}
