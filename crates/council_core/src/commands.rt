//! The commands that change the register, and its record of a member.
ghost use Rattle.std.specs.Prelude.{◌≡◌, ◌≤◌, Some};
ghost use Rattle.council_core.specs.Commands.{command_of_parts, form_of_kind, form_of_parts, parts_of_command};
ghost use Rattle.council_core.specs.Rolls.{new_standing};
ghost use Rattle.council_core.specs.Laws.{SetsInRange};

use crate::kinds::{CommandKind, Parts};
use crate::limits::MAX_VOTES;
use crate::values::{ChairId, MemberCode, Votes};

/// A change of the register. `Register::apply` lists the refusals of each.
#[derive(Clone, Copy, Debug, PartialEq, Eq, Hash)]
pub enum Command {
    /// Opens a chair that is closed.
    Open(ChairId),
    /// Closes an open chair that has no members. Suspended members count as members.
    Close(ChairId),
    /// Seats a member in an open chair, or in none. Its chair is its constituency (Article XII,
    /// Section 3(i)).
    Move(MemberCode, Option<ChairId>),
    /// Sets the votes of a member, suspended or not.
    SetVotes(MemberCode, Votes),
    /// Suspends a member's voting rights: its votes are neither cast nor counted in the total
    /// voting power, and it keeps its place in its chair (Schedule L).
    Suspend(MemberCode),
    /// Ends a suspension: the member's votes count again in its chair.
    Restore(MemberCode),
    /// Adds a new member with its votes, last in the order of entry, in no chair and not suspended
    /// (Article II, Section 2).
    Admit(MemberCode, Votes),
    /// Removes a member that sits in no chair, suspended or not (Article XXVI, Section 1). The
    /// members entered after it move up, and its code may be admitted again.
    Withdraw(MemberCode),
}

impl Command {
    /// The command of this kind with these parts, or `None` if they are in another form than the
    /// kind's.
    pub fn from_parts(kind: CommandKind, parts: Parts) -> Option<Command>
        ensures command { result ≡ command_of_parts kind parts }
    {
        match (kind, parts) {
            (CommandKind::Open, Parts::Chair(chair)) => Some(Command::Open(chair)),
            (CommandKind::Close, Parts::Chair(chair)) => Some(Command::Close(chair)),
            (CommandKind::Move, Parts::Seat(code, seat)) => Some(Command::Move(code, seat)),
            (CommandKind::SetVotes, Parts::Votes(code, votes)) => {
                Some(Command::SetVotes(code, votes))
            }
            (CommandKind::Suspend, Parts::Member(code)) => Some(Command::Suspend(code)),
            (CommandKind::Restore, Parts::Member(code)) => Some(Command::Restore(code)),
            (CommandKind::Admit, Parts::Votes(code, votes)) => Some(Command::Admit(code, votes)),
            (CommandKind::Withdraw, Parts::Member(code)) => Some(Command::Withdraw(code)),
            _ => None,
        }
    }

    /// The command's kind and its parts.
    pub fn into_parts(self) -> (CommandKind, Parts)
        ensures parts { result ≡ parts_of_command self }
        ensures whole { command_of_parts result.0 result.1 ≡ Some self }
        ensures formed { form_of_parts result.1 ≡ form_of_kind result.0 }
    {
        match self {
            Command::Open(chair) => (CommandKind::Open, Parts::Chair(chair)),
            Command::Close(chair) => (CommandKind::Close, Parts::Chair(chair)),
            Command::Move(code, seat) => (CommandKind::Move, Parts::Seat(code, seat)),
            Command::SetVotes(code, votes) => (CommandKind::SetVotes, Parts::Votes(code, votes)),
            Command::Suspend(code) => (CommandKind::Suspend, Parts::Member(code)),
            Command::Restore(code) => (CommandKind::Restore, Parts::Member(code)),
            Command::Admit(code, votes) => (CommandKind::Admit, Parts::Votes(code, votes)),
            Command::Withdraw(code) => (CommandKind::Withdraw, Parts::Member(code)),
        }
    }

    // The number of votes that the command sets, and 0 if it sets none.
    pub(crate) fn votes(&self) -> u64
        ensures { SetsInRange self.now }
    {
        match self {
            Command::SetVotes(_, votes) | Command::Admit(_, votes) => votes.number(),
            _ => 0,
        }
    }
}

/// The register's record of a member, except its code.
#[derive(Clone, Copy, Debug, PartialEq, Eq, Hash)]
pub struct Standing {
    /// The member's votes, also while it is suspended.
    pub votes: Votes,
    /// The open chair in which the member sits and which casts its votes, or `None`.
    pub chair: Option<ChairId>,
    /// Whether the member's voting rights are suspended, so that its votes count nowhere.
    pub suspended: bool,
}

impl Standing {
    // The standing of a newly entered member.
    pub(crate) fn fresh(votes: Votes) -> Standing
        ensures same { result ≡ new_standing votes }
        ensures small { votes ≤ MAX_VOTES }
    {
        // The prover needs this line: the votes are in range.
        let _votes = votes.number();
        Standing {
            votes,
            chair: None,
            suspended: false,
        }
    }
}

/// A member after the accepted commands.
#[derive(Clone, Copy, Debug, PartialEq, Eq, Hash)]
pub struct MemberRow {
    /// The member's code.
    pub code: MemberCode,
    /// The member's votes, also while it is suspended.
    pub votes: Votes,
    /// The open chair in which the member sits and which casts its votes, or `None`.
    pub chair: Option<ChairId>,
    /// Whether the member's voting rights are suspended, so that its votes count nowhere.
    pub suspended: bool,
}
