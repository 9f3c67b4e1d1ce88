//! The changes that accepted commands make to the members and the totals.
ghost use Rattle.std.specs.Prelude.{◌≡◌, ◌≤◌, ◌+◌, length, is_some, true, Some};
ghost use Rattle.indexmap.specs.IndexMap.{spare};
ghost use Rattle.council_core.specs.Rolls.{index_among, standing_among, opening_roll};
ghost use Rattle.council_core.specs.Laws.{IsOpening};
ghost use Rattle.council_core.specs.Changes.{AgreesWith, IsDue, CarriesOut, IsAccepted, PlansFor, AreAccepted, Replays};

use crate::commands::{Command, Standing};
use crate::limits::MAX_MEMBERS;
use crate::stores::{enter_all, enter_new, put, take_out};
use crate::totals::ChairTotals;
use crate::values::{ChairId, MemberCode, Votes, index_of};
use indexmap::IndexMap;

// The change that an accepted command makes in addition to the journal.
#[derive(Clone, Copy)]
pub(crate) enum Change {
    // A chair that was closed is open.
    Open(ChairId),
    // A chair that was open is closed.
    Close(ChairId),
    // The member at `index`, in the order of entry, gets a new standing.
    Update {
        index: usize,
        old: Standing,
        new: Standing,
    },
    // A new member is added with its votes, last.
    Enter(MemberCode, Votes),
    // The member at `index`, which has this standing, is removed.
    Remove {
        index: usize,
        old: Standing,
    },
}

// The index and the standing of the member with this code.
fn known(members: &IndexMap<MemberCode, Standing>, code: MemberCode) -> (usize, Standing)
    requires { is_some (standing_among code members.now.entries) ≡ true }
    ensures index { index_among code members.now.entries ≡ Some result.0 }
    ensures found { standing_among code members.now.entries ≡ Some result.1 }
{
    match members.get_full(&code) {
        Some((index, _code, standing)) => (index, *standing),
        None => unreachable!(),
    }
}

// The change that an accepted command makes.
fn change_of(members: &IndexMap<MemberCode, Standing>, command: Command) -> Change
    requires { IsAccepted members.now.entries command }
    ensures { PlansFor members.now.entries command result }
{
    match command {
        Command::Open(chair) => Change::Open(chair),
        Command::Close(chair) => Change::Close(chair),
        Command::Move(code, to) => {
            let (index, old) = known(members, code);
            let new = Standing { chair: to, ..old };
            Change::Update { index, old, new }
        }
        Command::SetVotes(code, votes) => {
            let (index, old) = known(members, code);
            let new = Standing { votes, ..old };
            Change::Update { index, old, new }
        }
        Command::Suspend(code) => {
            let (index, old) = known(members, code);
            let new = Standing {
                suspended: true,
                ..old
            };
            Change::Update { index, old, new }
        }
        Command::Restore(code) => {
            let (index, old) = known(members, code);
            let new = Standing {
                suspended: false,
                ..old
            };
            Change::Update { index, old, new }
        }
        Command::Admit(code, votes) => Change::Enter(code, votes),
        Command::Withdraw(code) => {
            let (index, old) = known(members, code);
            Change::Remove { index, old }
        }
    }
}

// Carries out a change.
pub(crate) fn carry_out(
    members: &mut IndexMap<MemberCode, Standing>,
    totals: &mut ChairTotals,
    change: Change,
)
    requires due { IsDue members.old.entries totals.old change }
    requires room { MAX_MEMBERS ≤ length members.old.entries + spare members.old }
    ensures done { CarriesOut change members.old.entries totals.old members.new.entries totals.new }
    ensures room { MAX_MEMBERS ≤ length members.new.entries + spare members.new }
{
    // The prover needs this line, since a change has chairs.
    let _nowhere: Option<ChairId> = None;
    match change {
        Change::Open(chair) => totals.words[index_of(chair)] = 1,
        Change::Close(chair) => totals.words[index_of(chair)] = 0,
        Change::Update { index, old, new } => {
            // The prover needs this line: the votes are in range.
            let _votes = new.votes.number();
            totals.withdraw(&old);
            totals.enter(&new);
            put(members, index, new);
        }
        Change::Enter(code, votes) => {
            enter_new(members, code, votes);
            totals.enter(&Standing::fresh(votes));
        }
        Change::Remove { index, old } => {
            totals.withdraw(&old);
            take_out(members, index);
        }
    }
}

// Makes the members and the totals those of a new register.
pub(crate) fn begin(
    members: &mut IndexMap<MemberCode, Standing>,
    totals: &mut ChairTotals,
    opening: &[(MemberCode, Votes)],
)
    requires opening { IsOpening opening.now }
    requires room { MAX_MEMBERS ≤ length members.old.entries + spare members.old }
    ensures begun { AgreesWith (opening_roll opening.now) members.new.entries totals.new }
    ensures room { MAX_MEMBERS ≤ length members.new.entries + spare members.new }
{
    enter_all(members, opening);
    *totals = ChairTotals::start(opening);
}

// Carries out commands that were accepted before.
pub(crate) fn replay(
    members: &mut IndexMap<MemberCode, Standing>,
    totals: &mut ChairTotals,
    commands: &[Command],
)
    requires accepted { AreAccepted members.old.entries totals.old commands.now }
    requires room { MAX_MEMBERS ≤ length members.old.entries + spare members.old }
    ensures done { Replays commands.now members.old.entries totals.old members.new.entries totals.new }
    ensures room { MAX_MEMBERS ≤ length members.new.entries + spare members.new }
{
    for command in commands {
        let change = change_of(members, *command);
        carry_out(members, totals, change);
    }
}
