//! The kinds of commands, each with its word, its number and the form of its parts.
ghost use Rattle.std.specs.Prelude.{◌≡◌, ◌==◌, Some, find};
ghost use Rattle.std.specs.Str.{bytes_eq};
ghost use Rattle.council_core.specs.Commands.{form_of_kind, kind_numbered, kind_of_word, number_of_kind, word_of_kind};

use crate::values::{ChairId, MemberCode, Votes};

/// A command without its parts.
///
/// ```rust
/// for kind in CommandKind::ALL {
///     println!(rt; "{}: {}", kind.number(), kind.word())?; // 0: open, 1: close, ..
/// }
/// ```
#[derive(Clone, Copy, Debug, PartialEq, Eq, Hash)]
pub enum CommandKind {
    /// `Command::Open`.
    Open,
    /// `Command::Close`.
    Close,
    /// `Command::Move`.
    Move,
    /// `Command::SetVotes`.
    SetVotes,
    /// `Command::Suspend`.
    Suspend,
    /// `Command::Restore`.
    Restore,
    /// `Command::Admit`.
    Admit,
    /// `Command::Withdraw`.
    Withdraw,
}

/// The form of a command's parts, which all commands of a kind have.
#[derive(Clone, Copy, Debug, PartialEq, Eq, Hash)]
pub enum Form {
    /// A chair.
    Chair,
    /// A member.
    Member,
    /// A member and its seat.
    Seat,
    /// A member and its votes.
    Votes,
}

/// The parts of a command, in one of the forms.
#[derive(Clone, Copy, Debug, PartialEq, Eq, Hash)]
pub enum Parts {
    /// The chair to open or to close.
    Chair(ChairId),
    /// The member.
    Member(MemberCode),
    /// The member and the chair in which it is to sit, or `None`.
    Seat(MemberCode, Option<ChairId>),
    /// The member and its new votes.
    Votes(MemberCode, Votes),
}

impl CommandKind {
    /// Every kind once, by number.
    pub const ALL: [CommandKind; 8] = [
        CommandKind::Open,
        CommandKind::Close,
        CommandKind::Move,
        CommandKind::SetVotes,
        CommandKind::Suspend,
        CommandKind::Restore,
        CommandKind::Admit,
        CommandKind::Withdraw,
    ];

    /// The kind with this word, or `None` if no kind has it.
    pub fn from_word(word: &[u8]) -> Option<CommandKind>
        ensures known { result ≡ kind_of_word word.now }
    {
        first_of_word(&Self::ALL, word)
    }

    /// The kind with this number, or `None` if no kind has it.
    pub fn from_number(number: u32) -> Option<CommandKind>
        ensures known { result ≡ kind_numbered number }
    {
        first_of_number(&Self::ALL, number)
    }

    /// The kind's word in ASCII, the first field of a record of a script.
    pub fn word(self) -> &'static str
        ensures word { result.now ≡ word_of_kind self }
        ensures read_back { kind_of_word result.now ≡ Some self }
    {
        match self {
            CommandKind::Open => "open",
            CommandKind::Close => "close",
            CommandKind::Move => "move",
            CommandKind::SetVotes => "votes",
            CommandKind::Suspend => "suspend",
            CommandKind::Restore => "restore",
            CommandKind::Admit => "admit",
            CommandKind::Withdraw => "withdraw",
        }
    }

    /// The kind's number in the library for C.
    pub fn number(self) -> u32
        ensures number { result ≡ number_of_kind self }
        ensures read_back { kind_numbered result ≡ Some self }
    {
        self as u32
    }

    /// The form of the kind's parts.
    pub fn form(self) -> Form
        ensures form { result ≡ form_of_kind self }
    {
        match self {
            CommandKind::Open | CommandKind::Close => Form::Chair,
            CommandKind::Move => Form::Seat,
            CommandKind::SetVotes | CommandKind::Admit => Form::Votes,
            CommandKind::Suspend | CommandKind::Restore | CommandKind::Withdraw => Form::Member,
        }
    }
}

// The first of these kinds that has this word, or `None`.
fn first_of_word(kinds: &[CommandKind], word: &[u8]) -> Option<CommandKind>
    ensures { result ≡ find (λ k. bytes_eq word.now (word_of_kind k)) kinds.now }
{
    kinds
        .iter()
        .copied()
        .find(|kind| word == kind.word().as_bytes())
}

// The first of these kinds that has this number, or `None`.
fn first_of_number(kinds: &[CommandKind], number: u32) -> Option<CommandKind>
    ensures { result ≡ find (λ k. number_of_kind k == number) kinds.now }
{
    kinds.iter().copied().find(|kind| kind.number() == number)
}
