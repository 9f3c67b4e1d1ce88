//! The register and its calls.
ghost use Rattle.std.specs.Prelude.{◌≡◌, ◌≤◌, ◌<◌, ◌==◌, [], length, map, slice_get, None, Some, Ok};
ghost use Rattle.std.specs.Prelude.{slice_index, Err, true, false, IfOk, IfErr, IsOkUnless, OnErr};
ghost use Rattle.std.specs.List.{All, list_any};
ghost use Rattle.std.specs.Option.{option_map};
ghost use Rattle.council_core.specs.Members.{row_of};
ghost use Rattle.council_core.specs.Sheets.{IsSheet};
ghost use Rattle.council_core.specs.Rolls.{IsLegal, step, is_open, can_receive, standing_among, index_among, same_code};
ghost use Rattle.council_core.specs.Rolls.{has_members};
ghost use Rattle.council_core.specs.Laws.{IsOpening, SetsInRange};
ghost use Rattle.council_core.specs.Verdicts.{Follows};
ghost use Rattle.council_core.specs.Registers.{IsPlanned};
ghost use Rattle.council_core.specs.Ledgers.{Ledger, IsLedger, roll_of, verdict_of, room_of, ledger_with, sheet_of};
ghost use Rattle.council_core.specs.Ledgers.{has_duplicate, ledger_as_of, start_verdict};
ghost use Rattle.council_core.specs.declared.commands.Command.TheVariants.{Open, Close, Move, SetVotes, Suspend};
ghost use Rattle.council_core.specs.declared.commands.Command.TheVariants.{Restore, Admit, Withdraw};
ghost use Rattle.council_core.specs.declared.refusals.Refusal.TheVariants.{OutOfMemory, UnknownMember};

use crate::changes::{Change, begin, carry_out, replay};
use crate::commands::{Command, MemberRow, Standing};
use crate::limits::{FRONT, MAX_COMMANDS, MAX_MEMBERS, SHEET_WORDS, TOTAL};
use crate::member_rows::MemberRows;
use crate::refusals::Refusal;
use crate::sheets::Sheet;
use crate::stores::{append, copied, empty, enter_all, make_room};
use crate::totals::ChairTotals;
use crate::values::{ChairId, MemberCode, Votes, index_of};
use indexmap::IndexMap;
use std::alloc::Global;
use std::marker::Model;

/// The members, their votes and the chairs that cast them, with the journal of the accepted
/// commands from which this state results.
///
/// A call takes O(1) time, on average and amortised, since members are found by hash; except
/// `start`, which compares all pairs of codes, `as_of`, which carries out commands again, and the
/// `apply` of a `Withdraw`, which may enter all other members again.
#[derive(Debug, Drop)]
pub struct Register {
    opening: Vec<(MemberCode, Votes)>,
    members: IndexMap<MemberCode, Standing>,
    totals: ChairTotals,
    journal: Vec<Command>,
    limit: u32,
}

impl Model for Register {
    ghost use Rattle.council_core.specs.Ledgers.{Ledger};
    ghost use Rattle.council_core.specs.Registers.{IsKept};
    ghost use Rattle.indexmap.specs.IndexMap.{spare};

    ghost Value = { Ledger };

    ghost view = { λ r. record { opening = r.opening.items; journal = r.journal.items; limit = r.limit } };

    ghost invariant = { λ r. IsKept (record { opening = r.opening.items; journal = r.journal.items; limit = r.limit })
        r.members.entries (spare r.members) r.totals.words r.totals.counts r.totals.total };
}

// Whether one of the members has this code.
fn has_code(members: &[(MemberCode, Votes)], code: MemberCode) -> bool
    ensures { result ≡ list_any (λ n. same_code n.0 code) members.now }
{
    members.iter().any(|other| other.0 == code)
}

// Whether two of the members have the same code.
fn has_duplicate(members: &[(MemberCode, Votes)]) -> bool
    ensures { result ≡ has_duplicate members.now }
{
    match members {
        [] => false,
        [first, rest @ ..] => has_code(rest, first.0) || has_duplicate(rest),
    }
}

impl Register {
    /// A register of these members, with no accepted command: no member sits in a chair or is
    /// suspended, and no chair is open. `journal_limit` is the number of commands that it can
    /// accept.
    ///
    /// # Errors
    ///
    /// The first of these that applies:
    ///
    /// - `Refusal::BadLimit` if `journal_limit` is 0 or above `MAX_COMMANDS`;
    /// - `Refusal::TooManyMembers` if there are more than `MAX_MEMBERS` members;
    /// - `Refusal::DuplicateMember` if two members have the same code;
    /// - `Refusal::OutOfMemory` if memory could not be allocated.
    ///
    /// ```rust
    /// let member = (MemberCode::new(b"AAA")?, Votes::new(10)?);
    /// let mut register = Register::start(alloc, &[member], 1_000)?;
    /// let chair = ChairId::new(1)?;
    /// assert_eq!(rt; register.apply(Command::Open(chair))?, 1);
    /// assert!(rt; register.apply(Command::Open(chair)).err() == Some(Refusal::ChairOpen));
    /// assert_eq!(rt; register.sheet().weight(chair), Some(0));
    /// ```
    pub fn start(
        alloc: Global,
        members: &[(MemberCode, Votes)],
        journal_limit: u32,
    ) -> Result<Register, Refusal>
        ensures verdict { Follows (start_verdict members.now journal_limit) result OutOfMemory }
        ensures started { IfOk result
            (λ r. r ≡ record { opening = members.now; journal = []; limit = journal_limit }) }
    {
        if journal_limit == 0 || MAX_COMMANDS < journal_limit {
            return Err(Refusal::BadLimit);
        }
        if MAX_MEMBERS < members.len() {
            return Err(Refusal::TooManyMembers);
        }
        if has_duplicate(members) {
            return Err(Refusal::DuplicateMember);
        }
        Register::at_start(alloc, members, journal_limit)
    }

    // A register of these members, with no accepted command.
    fn at_start(
        alloc: Global,
        members: &[(MemberCode, Votes)],
        journal_limit: u32,
    ) -> Result<Register, Refusal>
        requires few { length members.now ≤ MAX_MEMBERS }
        requires apart { has_duplicate members.now ≡ false }
        requires limit { journal_limit ≤ MAX_COMMANDS }
        ensures started { IfOk result
            (λ r. r ≡ record { opening = members.now; journal = []; limit = journal_limit }) }
        ensures memory { IsOkUnless result OutOfMemory }
    {
        let opening = copied(alloc, members)?;
        let mut entered = empty(alloc)?;
        enter_all(&mut entered, members);
        Ok(Register {
            opening,
            members: entered,
            totals: ChairTotals::start(members),
            journal: Vec::new(alloc),
            limit: journal_limit,
        })
    }

    /// A copy of the register as it was after its first `accepted` commands; of the register as it
    /// is if it has accepted no more. The copy has the same journal limit, and the two registers
    /// share nothing. It takes the time of carrying out these commands again.
    ///
    /// # Errors
    ///
    /// `Refusal::OutOfMemory` if memory could not be allocated.
    ///
    /// ```rust
    /// let before = register.as_of(alloc, 2)?; // after its second accepted command
    /// let mut trial = register.as_of(alloc, register.accepted())?;
    /// ```
    pub fn as_of(&self, alloc: Global, accepted: u32) -> Result<Register, Refusal>
        ensures copied { IfOk result (λ r. r ≡ ledger_as_of self.now accepted) }
        ensures memory { IsOkUnless result OutOfMemory }
    {
        let mut copy = Register::at_start(alloc, &self.opening, self.limit)?;
        let count = self.journal.len().min(accepted as usize);
        for index in 0..count {
            copy.apply(self.journal[index])?;
        }
        Ok(copy)
    }

    /// The number of accepted commands, from 0 to the journal limit.
    pub fn accepted(&self) -> u32
        ensures number { result ≡ length self.now.journal }
    {
        self.journal().len() as u32
    }

    /// The accepted commands, in order. Each was accepted at its turn, and there are at most as
    /// many as the journal limit, which is at most `MAX_COMMANDS`. The votes that the commands set,
    /// the votes of the opening members and the numbers of the sheet are in range.
    pub fn journal(&self) -> &[Command]
        ensures commands { result.now ≡ self.now.journal }
        ensures legal { IsLegal self.now.opening self.now.journal }
        ensures begun { IsOpening self.now.opening }
        ensures votes { All SetsInRange self.now.journal }
        ensures in_range { IsSheet (sheet_of self.now) }
        ensures within { length self.now.journal ≤ self.now.limit }
        ensures limit { self.now.limit ≤ MAX_COMMANDS }
    {
        self.journal.as_slice()
    }

    /// The members with which the register started, in their order, with the votes that they had.
    pub fn opening(&self) -> &[(MemberCode, Votes)]
        ensures members { result.now ≡ self.now.opening }
        ensures begun { IsOpening self.now.opening }
    {
        self.opening.as_slice()
    }

    /// The number of members, from 0 to `MAX_MEMBERS`.
    pub fn members(&self) -> usize
        ensures number { result ≡ length (roll_of self.now).members }
        ensures few { result ≤ MAX_MEMBERS }
    {
        self.members.len()
    }

    /// The member at this index in the order of entry, counted from 0, or `None` if there are fewer
    /// members.
    pub fn member_at(&self, index: usize) -> Option<MemberRow>
        ensures row { result ≡ option_map row_of (slice_get (roll_of self.now).members index) }
        ensures legal { IsLegal self.now.opening self.now.journal }
    {
        match self.members.get_index(index) {
            Some((code, standing)) => Some(MemberRow {
                code: *code,
                votes: standing.votes,
                chair: standing.chair,
                suspended: standing.suspended,
            }),
            None => None,
        }
    }

    /// The members in the order of entry.
    ///
    /// ```rust
    /// for row in register.member_rows() {
    ///     println!(rt; "{}: {} votes", row.code, row.votes)?; // AAA: 50 votes
    /// }
    /// ```
    pub fn member_rows(&self) -> MemberRows<'_>
        ensures rows { result ≡ map row_of (roll_of self.now).members }
    {
        MemberRows {
            register: self,
            index: 0,
        }
    }

    /// The sheet after the accepted commands. The journal is legal and within its limit, so the
    /// sheet's numbers are in range.
    pub fn sheet(&self) -> Sheet
        ensures same { result ≡ sheet_of self.now }
        ensures in_range { IsSheet result }
        ensures ledger { IsLedger self.now }
    {
        self.totals.sheet(self.journal.len() as u32)
    }

    /// One number of the sheet after the accepted commands, without the others. `index` is its
    /// index, below `SHEET_WORDS`: a chair's word, the total voting power in votes (`TOTAL`), or
    /// the number of accepted commands (`FRONT`).
    pub fn sheet_word(&self, index: usize) -> u64
        requires within { index < SHEET_WORDS }
        ensures same { result ≡ slice_index (sheet_of self.now) index }
    {
        match index {
            TOTAL => self.totals.total,
            FRONT => self.journal.len() as u64,
            _ => self.totals.words[index],
        }
    }

    // Whether a chair is open: its word is not 0.
    fn is_open(&self, chair: ChairId) -> bool
        ensures { result ≡ is_open (roll_of self.now) chair }
    {
        self.totals.words[index_of(chair)] != 0
    }

    // Whether members sit in a chair. Suspended members count.
    fn has_members(&self, chair: ChairId) -> bool
        ensures { result ≡ has_members (roll_of self.now) chair }
    {
        self.totals.counts[index_of(chair)] != 0
    }

    // Whether a member may be seated here: in no chair, or in an open one.
    fn can_receive(&self, to: Option<ChairId>) -> bool
        ensures { result ≡ can_receive (roll_of self.now) to }
    {
        match to {
            Some(chair) => self.is_open(chair),
            None => true,
        }
    }

    // The index and the standing of the member with this code.
    fn find(&self, code: MemberCode) -> Result<(usize, Standing), Refusal>
        ensures index { IfOk result (λ m. index_among code (roll_of self.now).members ≡ Some m.0) }
        ensures found { IfOk result (λ m. standing_among code (roll_of self.now).members ≡ Some m.1) }
        ensures seat { IfOk result (λ m. can_receive (roll_of self.now) m.1.chair ≡ true) }
        ensures unknown { IfErr result
            (λ e. (e ≡ UnknownMember) × (standing_among code (roll_of self.now).members ≡ None)) }
    {
        match self.members.get_full(&code) {
            Some((index, _code, standing)) => Ok((index, *standing)),
            None => Err(Refusal::UnknownMember),
        }
    }

    // The change that `Open` makes, or its refusal.
    fn plan_open(&self, chair: ChairId) -> Result<Change, Refusal>
        ensures refused { IfErr result (λ e. step (roll_of self.now) (Open chair) ≡ Err e) }
        ensures planned { IfOk result (IsPlanned (roll_of self.now) (Open chair)) }
    {
        if self.is_open(chair) {
            return Err(Refusal::ChairOpen);
        }
        Ok(Change::Open(chair))
    }

    // The change that `Close` makes, or its refusal.
    fn plan_close(&self, chair: ChairId) -> Result<Change, Refusal>
        ensures refused { IfErr result (λ e. step (roll_of self.now) (Close chair) ≡ Err e) }
        ensures planned { IfOk result (IsPlanned (roll_of self.now) (Close chair)) }
    {
        if !self.is_open(chair) {
            return Err(Refusal::ChairNotOpen);
        }
        if self.has_members(chair) {
            return Err(Refusal::ChairHasMembers);
        }
        Ok(Change::Close(chair))
    }

    // The change that `Move` makes, or its refusal.
    fn plan_move(&self, code: MemberCode, to: Option<ChairId>) -> Result<Change, Refusal>
        ensures refused { IfErr result (λ e. step (roll_of self.now) (Move code to) ≡ Err e) }
        ensures planned { IfOk result (IsPlanned (roll_of self.now) (Move code to)) }
    {
        let (index, old) = self.find(code)?;
        if old.suspended {
            return Err(Refusal::MemberSuspended);
        }
        if !self.can_receive(to) {
            return Err(Refusal::ChairNotOpen);
        }
        if old.chair == to {
            return Err(Refusal::AlreadyThere);
        }
        let new = Standing { chair: to, ..old };
        Ok(Change::Update { index, old, new })
    }

    // The change that `SetVotes` makes, or its refusal.
    fn plan_set_votes(&self, code: MemberCode, votes: Votes) -> Result<Change, Refusal>
        ensures refused { IfErr result (λ e. step (roll_of self.now) (SetVotes code votes) ≡ Err e) }
        ensures planned { IfOk result (IsPlanned (roll_of self.now) (SetVotes code votes)) }
    {
        let (index, old) = self.find(code)?;
        let new = Standing { votes, ..old };
        Ok(Change::Update { index, old, new })
    }

    // The change that `Suspend` makes, or its refusal.
    fn plan_suspend(&self, code: MemberCode) -> Result<Change, Refusal>
        ensures refused { IfErr result (λ e. step (roll_of self.now) (Suspend code) ≡ Err e) }
        ensures planned { IfOk result (IsPlanned (roll_of self.now) (Suspend code)) }
    {
        let (index, old) = self.find(code)?;
        if old.suspended {
            return Err(Refusal::AlreadySuspended);
        }
        let new = Standing {
            suspended: true,
            ..old
        };
        Ok(Change::Update { index, old, new })
    }

    // The change that `Restore` makes, or its refusal.
    fn plan_restore(&self, code: MemberCode) -> Result<Change, Refusal>
        ensures refused { IfErr result (λ e. step (roll_of self.now) (Restore code) ≡ Err e) }
        ensures planned { IfOk result (IsPlanned (roll_of self.now) (Restore code)) }
    {
        let (index, old) = self.find(code)?;
        if !old.suspended {
            return Err(Refusal::NotSuspended);
        }
        let new = Standing {
            suspended: false,
            ..old
        };
        Ok(Change::Update { index, old, new })
    }

    // The change that `Admit` makes, or its refusal.
    fn plan_admit(&self, code: MemberCode, votes: Votes) -> Result<Change, Refusal>
        ensures refused { IfErr result (λ e. step (roll_of self.now) (Admit code votes) ≡ Err e) }
        ensures planned { IfOk result (IsPlanned (roll_of self.now) (Admit code votes)) }
    {
        if self.members.contains_key(&code) {
            return Err(Refusal::MemberExists);
        }
        if MAX_MEMBERS <= self.members.len() {
            return Err(Refusal::TooManyMembers);
        }
        Ok(Change::Enter(code, votes))
    }

    // The change that `Withdraw` makes, or its refusal.
    fn plan_withdraw(&self, code: MemberCode) -> Result<Change, Refusal>
        ensures refused { IfErr result (λ e. step (roll_of self.now) (Withdraw code) ≡ Err e) }
        ensures planned { IfOk result (IsPlanned (roll_of self.now) (Withdraw code)) }
    {
        let (index, old) = self.find(code)?;
        if old.chair.is_some() {
            return Err(Refusal::MemberSeated);
        }
        Ok(Change::Remove { index, old })
    }

    // The change that a command makes, or the refusal of its step.
    fn plan(&self, command: Command) -> Result<Change, Refusal>
        ensures refused { IfErr result (λ e. step (roll_of self.now) command ≡ Err e) }
        ensures planned { IfOk result (IsPlanned (roll_of self.now) command) }
    {
        match command {
            Command::Open(chair) => self.plan_open(chair),
            Command::Close(chair) => self.plan_close(chair),
            Command::Move(code, to) => self.plan_move(code, to),
            Command::SetVotes(code, votes) => self.plan_set_votes(code, votes),
            Command::Suspend(code) => self.plan_suspend(code),
            Command::Restore(code) => self.plan_restore(code),
            Command::Admit(code, votes) => self.plan_admit(code, votes),
            Command::Withdraw(code) => self.plan_withdraw(code),
        }
    }

    // Refuses if the journal has reached its limit.
    fn check_room(&self) -> Result<(), Refusal>
        ensures { result ≡ room_of self.now }
    {
        if self.journal.len() == self.limit as usize {
            Err(Refusal::JournalFull)
        } else {
            Ok(())
        }
    }

    /// Checks a command without carrying it out. After `Ok`, `apply` can fail only with
    /// `OutOfMemory`.
    ///
    /// # Errors
    ///
    /// The errors of `apply` except `Refusal::OutOfMemory`, in the same order.
    pub fn check(&self, command: Command) -> Result<(), Refusal>
        ensures verdict { result ≡ verdict_of self.now command }
    {
        // The prover needs a match: `?` would drop the change implicitly.
        match self.plan(command) {
            Ok(_) => self.check_room(),
            Err(why) => Err(why),
        }
    }

    /// Carries out a command and returns the number of accepted commands, including this one.
    ///
    /// # Errors
    ///
    /// The first of these that applies; the register is then unchanged:
    ///
    /// - the refusal of the command itself: for `Open` `ChairOpen`; for `Close` `ChairNotOpen`,
    ///   then `ChairHasMembers`; for `Move` `UnknownMember`, `MemberSuspended`, `ChairNotOpen`,
    ///   `AlreadyThere`; for `SetVotes` `UnknownMember`; for `Suspend` `UnknownMember`,
    ///   `AlreadySuspended`; for `Restore` `UnknownMember`, `NotSuspended`; for `Admit`
    ///   `MemberExists`, `TooManyMembers`; for `Withdraw` `UnknownMember`, `MemberSeated`;
    /// - `Refusal::JournalFull` if the number of accepted commands has reached the journal limit;
    /// - `Refusal::OutOfMemory` if memory could not be allocated.
    pub fn apply(&mut self, command: Command) -> Result<u32, Refusal>
        ensures verdict { Follows (verdict_of self.old command) result OutOfMemory }
        ensures accepted { IfOk result
            (λ n. (self.new ≡ ledger_with self.old command) × (n ≡ length self.new.journal)) }
        ensures unchanged { OnErr result (self.new ≡ self.old) }
    {
        // The prover needs this line, since a plan has chairs.
        let _nowhere: Option<ChairId> = None;
        // The prover needs this line: the votes that a command sets are in range.
        let _votes = command.votes();
        let change = self.plan(command)?;
        self.check_room()?;
        make_room(&mut self.journal)?;
        carry_out(&mut self.members, &mut self.totals, change);
        append(&mut self.journal, &command);
        Ok(self.journal.len() as u32)
    }

    // Takes the register back to what it was after its first `accepted` commands, and returns the
    // sheet of the first `front` of these.
    pub(crate) fn take_back(&mut self, accepted: u32, front: u32) -> Sheet
        ensures taken_back { self.new ≡ ledger_as_of self.old accepted }
        ensures same { result ≡ sheet_of (ledger_as_of (ledger_as_of self.old accepted) front) }
        ensures in_range { IsSheet result }
    {
        let kept = self.journal.len().min(accepted as usize);
        let front = kept.min(front as usize);
        begin(&mut self.members, &mut self.totals, self.opening.as_slice());
        replay(
            &mut self.members,
            &mut self.totals,
            &self.journal.as_slice()[..front],
        );
        let sheet = self.totals.sheet(front as u32);
        replay(
            &mut self.members,
            &mut self.totals,
            &self.journal.as_slice()[front..kept],
        );
        self.journal.truncate(kept);
        sheet
    }
}
