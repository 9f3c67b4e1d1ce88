//! The reasons for which calls are refused and runs end.
ghost use Rattle.std.specs.Prelude.{◌≡◌, ◌≤◌, ◌==◌, length, find};
ghost use Rattle.council_core.specs.Refusals.{code_of, name_of, refusal_of};
ghost use Rattle.council_core.specs.declared.refusals.Refusal.TheVariants.{OutOfMemory};

use std::alloc::{AllocError, AllocFailed};
use std::error::Error;
use std::fmt;

/// Every refusal and fault of all crates. `code` is its number, `name` its name, and `Display`
/// writes its reason in words.
#[derive(Clone, Copy, Debug, PartialEq, Eq, Hash)]
pub enum Refusal {
    /// The chair is already open.
    ChairOpen = 1,
    /// The chair is closed.
    ChairNotOpen = 2,
    /// The chair has members. Suspended members count.
    ChairHasMembers = 3,
    /// No member has this code.
    UnknownMember = 4,
    /// The member's voting rights are suspended, so it cannot move.
    MemberSuspended = 5,
    /// The member is already where it is to move: in this chair, or in no chair.
    AlreadyThere = 6,
    /// The member is already suspended.
    AlreadySuspended = 7,
    /// The member is not suspended.
    NotSuspended = 8,
    /// The number of accepted commands has reached the journal limit.
    JournalFull = 9,
    /// Memory could not be allocated.
    OutOfMemory = 10,
    /// Two members have the same code.
    DuplicateMember = 11,
    /// There are, or would be, more than `MAX_MEMBERS` members.
    TooManyMembers = 12,
    /// A limit is out of range.
    BadLimit = 13,
    /// A chair's number is not from 1 to `CHAIRS`.
    BadChair = 14,
    /// A member's code is not three ASCII capitals.
    BadMember = 15,
    /// A member has more than `MAX_VOTES` votes.
    VotesTooLarge = 16,
    /// A record of the input is not well formed.
    BadRecord = 17,
    /// A reader has no place or no entry. Kept for its number: no call fails with it.
    NoEntry = 18,
    /// The input could not be read.
    ReadFault = 19,
    /// The output could not be written.
    WriteFault = 20,
    /// The first record of the input is not `member,votes`.
    BadHeader = 21,
    /// No reader has this number.
    BadReader = 22,
    /// A reader blocks the publication. No run ends with it.
    Busy = 23,
    /// A reading is not the sheet of a publication, or is older than the one before it.
    Mismatch = 24,
    /// Another member already has this code.
    MemberExists = 25,
    /// The member sits in a chair, so it cannot withdraw.
    MemberSeated = 26,
    /// A gate of the threads was closed.
    GateClosed = 27,
    /// The input ends before the record `script`.
    NoScript = 28,
    /// The input has more than 4,194,304 bytes.
    TooLong = 29,
    /// A command of an audited journal is refused. No run ends with it.
    BadJournal = 30,
    /// The cuts of an audit are not in order, or one is past the journal's end. No run ends with
    /// it.
    BadCuts = 31,
    /// The words are not those of a sheet.
    BadSheet = 32,
    /// More chairs are open than can be counted. Kept for its number: no call fails with it.
    TooManyChairs = 33,
    /// A handle, through which a program in C calls a register, has no register. No run ends with
    /// it.
    NoRegister = 34,
    /// A list of a handle's register has no item at this index. No run ends with it.
    BadIndex = 35,
}

// Calls the macro `$make` with all refusals, by number, each with its reason.
macro_rules! refusals {
    ($make:ident $($given:expr)?) => {
        $make! { $($given)? =>
            ChairOpen: "the chair is open already",
            ChairNotOpen: "the chair is not open",
            ChairHasMembers: "the chair has members, suspended ones counted",
            UnknownMember: "no member has this code",
            MemberSuspended: "the member's voting rights are suspended",
            AlreadyThere: "the member is there already",
            AlreadySuspended: "the member is suspended already",
            NotSuspended: "the member is not suspended",
            JournalFull: "as many commands as the journal limit were accepted",
            OutOfMemory: "out of memory",
            DuplicateMember: "two members have the same code",
            TooManyMembers: "there are more than 256 members",
            BadLimit: "a limit is out of its range",
            BadChair: "a chair's number is not from 1 to 32",
            BadMember: "a member's code is not three ASCII capitals",
            VotesTooLarge: "a member has more than 2^40 votes",
            BadRecord: "a record is not well formed",
            NoEntry: "no place or no entry for a reader",
            ReadFault: "the input could not be read",
            WriteFault: "the output could not be written",
            BadHeader: "the first record is not 'member,votes'",
            BadReader: "there is no reader of this number",
            Busy: "a reader is blocking the publication",
            Mismatch: "a reading is not the sheet of a publication, or is older than the one before",
            MemberExists: "a member has this code already",
            MemberSeated: "the member sits in a chair",
            GateClosed: "a gate was closed",
            NoScript: "the input ends before the record 'script'",
            TooLong: "the input has more than 4,194,304 bytes",
            BadJournal: "a command of the journal is refused",
            BadCuts: "the cuts are not in order, or one is past the journal's end",
            BadSheet: "the words are not a sheet's",
            TooManyChairs: "more chairs are open than are counted",
            NoRegister: "the handle has no register",
            BadIndex: "there is no item at this index",
        }
    };
}

// An array of all refusals.
macro_rules! listed {
    (=> $($name:ident: $reason:literal,)*) => {
        [$(Refusal::$name),*]
    };
}

// The name of one refusal, as written above.
macro_rules! named {
    ($refusal:expr => $($name:ident: $reason:literal,)*) => {
        match $refusal {
            $(Refusal::$name => stringify!($name),)*
        }
    };
}

// The reason of one refusal.
macro_rules! reasoned {
    ($refusal:expr => $($name:ident: $reason:literal,)*) => {
        match $refusal {
            $(Refusal::$name => $reason,)*
        }
    };
}

impl Refusal {
    /// Every refusal once, by number.
    pub const ALL: [Refusal; 35] = refusals!(listed);

    /// The refusal with this number, or `None` if no refusal has it.
    pub fn from_code(code: u8) -> Option<Refusal>
        ensures known { result ≡ refusal_of code }
    {
        first_of_code(&Self::ALL, code)
    }

    /// The refusal's number, from 1 to 35. Numbers 1 to 9, 12, 25 and 26 refuse a command, and 10 is
    /// out of memory. The others belong to other calls and to runs.
    pub fn code(&self) -> u8
        ensures number { result ≡ code_of self.now }
    {
        *self as u8
    }

    /// The refusal's name in ASCII, as the output prints it, at most 16 bytes long.
    pub fn name(&self) -> &'static str
        ensures name { result.now ≡ name_of self.now }
        ensures short { length result.now ≤ 16 }
    {
        refusals!(named self)
    }
}

impl fmt::Display for Refusal {
    /// Writes the reason in words.
    fn fmt<W: fmt::Write>(&self, f: &mut fmt::Formatter<W>) -> fmt::Result {
        // A single call: one in each arm, as thiserror writes it, takes the prover more than a
        // minute.
        f.write_str(refusals!(reasoned self))
    }
}

impl Error for Refusal {}

impl From<AllocError> for Refusal {
    ghost from_gives = { λ _ refusal. refusal ≡ OutOfMemory };

    /// An allocation that failed.
    fn from(_: AllocError) -> Refusal {
        Refusal::OutOfMemory
    }
}

impl<T: Drop> From<AllocFailed<T>> for Refusal {
    ghost from_gives = { λ _ refusal. refusal ≡ OutOfMemory };

    /// An allocation that failed. The value that it was to store is dropped.
    fn from(_: AllocFailed<T>) -> Refusal {
        Refusal::OutOfMemory
    }
}

// The first of these refusals that has this number, or `None`.
fn first_of_code(refusals: &[Refusal], code: u8) -> Option<Refusal>
    ensures { result ≡ find (λ r. code_of r == code) refusals.now }
{
    refusals
        .iter()
        .copied()
        .find(|refusal| refusal.code() == code)
}
