//! The machine and its transitions.
ghost use Rattle.std.specs.Prelude.{◌≡◌, ◌+◌, ◌<◌, ◌==◌, ◌↔◌, if◌then◌else◌, length};
ghost use Rattle.std.specs.Prelude.{IsOk, IfOk, IfErr, OnErr, IsOkUnless, Ok, Err};
ghost use Rattle.council_core.specs.Ledgers.{IsLedger, verdict_of};
ghost use Rattle.council_core.specs.declared.refusals.Refusal.TheVariants.{OutOfMemory, BadLimit};
ghost use Rattle.two_copy_steps.specs.declared.events.Event.TheVariants.{Submit, Publish, Writer, Reader};
ghost use Rattle.two_copy_steps.specs.declared.views.Phase.TheVariants.{Idle, Seeing, Filling, Swapping};
ghost use Rattle.two_copy_steps.specs.Actions.{all_true};
ghost use Rattle.two_copy_steps.specs.Transitions.{transition, ledger_and_note, machine_at_start, is_idle};
ghost use Rattle.two_copy_steps.specs.Machines.{IsFew, WantsMemory};
ghost use Rattle.two_copy_steps.specs.Publications.{seen_out_at};

use crate::events::{Event, Note};
use crate::flags::Flags;
use crate::readers::ReaderStages;
use crate::table::{COPY_WORDS, READERS, SIDE, Table, copy_word, pin};
use crate::views::Phase;
use council_core::{Command, Refusal, Register, Sheet};
use std::marker::Model;

/// A register, two copies of its sheet, one writer and one to `READERS` readers, all on one thread.
#[derive(Debug, Drop)]
pub struct Machine {
    register: Register,
    table: Table,
    side: u64,
    published: u32,
    staged: Sheet,
    phase: Phase,
    seen_out: Flags,
    stages: ReaderStages,
}

impl Model for Machine {
    ghost use Rattle.two_copy_steps.specs.Transitions.{MachineState};
    ghost use Rattle.two_copy_steps.specs.Machines.{seen_as, IsMachine};

    ghost Value = { MachineState };

    ghost view = { λ m. seen_as m.register m.table m.side m.published m.staged m.phase m.seen_out m.stages };

    ghost invariant = { λ m. IsMachine m.register m.table m.side m.published m.staged m.phase m.seen_out m.stages };
}

// Submits a command to the register. The output says whether it was accepted.
fn submit_to(register: &mut Register, command: Command) -> Result<Note, Refusal>
    ensures handed { IfOk result
        (λ note. (register.new, note) ≡ ledger_and_note register.old command (verdict_of register.old command)) }
    ensures unchanged { OnErr result (register.new ≡ register.old) }
    ensures memory { IsOkUnless result OutOfMemory }
    ensures accepted { OnErr result (verdict_of register.old command ≡ Ok tt) }
{
    match register.apply(command) {
        Ok(accepted) => Ok(Note::Accepted(accepted)),
        Err(Refusal::OutOfMemory) => Err(Refusal::OutOfMemory),
        Err(refusal) => Ok(Note::Refused(refusal)),
    }
}

impl Machine {
    /// A machine over this register, with `readers` readers, numbered from 1. Both copies have the
    /// register's sheet, and the writer and all readers are at rest.
    ///
    /// # Errors
    ///
    /// `Refusal::BadLimit` unless `readers` is from 1 to `READERS`. The error also returns the
    /// register, unchanged.
    pub fn start(register: Register, readers: u8) -> Result<Machine, (Register, Refusal)>
        ensures in_range { IsOk result ↔ IsFew readers }
        ensures started { IfOk result (λ m. m ≡ machine_at_start register readers) }
        ensures ledger { IfOk result (λ m. IsLedger m.ledger) }
        ensures refused { IfErr result (λ e. (e.0 ≡ register) × (e.1 ≡ BadLimit)) }
    {
        if readers == 0 || READERS < readers as usize {
            return Err((register, Refusal::BadLimit));
        }
        let sheet = register.sheet();
        Ok(Machine {
            table: Table::start(&sheet.words(), readers),
            side: 0,
            published: register.accepted(),
            staged: sheet,
            phase: Phase::Idle,
            seen_out: Flags::start(readers),
            stages: ReaderStages::start(readers),
            register,
        })
    }

    /// The register after the events so far.
    pub fn register(&self) -> &Register
        ensures same { result.now ≡ self.now.ledger }
    {
        &self.register
    }

    /// The number of published commands.
    pub fn published(&self) -> u32
        ensures number { result ≡ length self.now.writer.published }
    {
        self.published
    }

    /// Whether the reader with this number, counted from 1, is quiescent: the writer found its pin
    /// at 0 since side was last stored, or nothing has been published yet. False if no reader has
    /// this number.
    pub fn seen_out(&self, reader: u8) -> bool
        ensures same { result ≡ seen_out_at self.now.writer.seen_out reader }
    {
        self.seen_out.has(reader)
    }

    /// Carries out one event and returns its output.
    ///
    /// # Errors
    ///
    /// `Refusal::OutOfMemory` if memory could not be allocated for a submitted command that the
    /// register accepts, while no publication is in progress. The machine is then unchanged. No
    /// other event fails.
    ///
    /// ```rust
    /// // A machine with one reader, over a new register.
    /// let open = Command::Open(ChairId::new(1)?);
    /// assert_eq!(rt; machine.step(Event::Submit(open))?, Note::Accepted(1));
    /// assert_eq!(rt; machine.step(Event::Reader(2))?, Note::Skipped);
    /// assert_eq!(rt; machine.step(Event::Publish)?, Note::Began);
    /// assert_eq!(rt; machine.step(Event::Writer)?, Note::Moved);
    /// ```
    pub fn step(&mut self, event: Event) -> Result<Note, Refusal>
        ensures machine { IfOk result (λ note. self.new ≡ (transition self.old event).0) }
        ensures note { IfOk result (λ note. note ≡ (transition self.old event).1) }
        ensures unchanged { OnErr result (self.new ≡ self.old) }
        ensures memory { IsOkUnless result OutOfMemory }
        ensures submit_alone { OnErr result (WantsMemory self.old event) }
    {
        match event {
            Event::Submit(command) => self.submit(command),
            Event::Publish => Ok(self.begin()),
            Event::Writer => Ok(self.write()),
            Event::Reader(number) => Ok(self.read(number)),
        }
    }

    // Submits a command to the register, unless a publication is in progress.
    fn submit(&mut self, command: Command) -> Result<Note, Refusal>
        ensures stepped { IfOk result (λ note. (self.new, note) ≡ transition self.old (Submit command)) }
        ensures unchanged { OnErr result (self.new ≡ self.old) }
        ensures memory { IsOkUnless result OutOfMemory }
        ensures accepted { OnErr result (WantsMemory self.old (Submit command)) }
    {
        if !self.is_idle() {
            return Ok(Note::Skipped);
        }
        submit_to(&mut self.register, command)
    }

    // Whether no publication is in progress.
    fn is_idle(&self) -> bool
        ensures { result ≡ is_idle self.now.writer.phase }
    {
        matches!(self.phase, Phase::Idle)
    }

    // Begins a publication, unless one is in progress or no command is pending.
    fn begin(&mut self) -> Note
        ensures { (self.new, result) ≡ transition self.old Publish }
    {
        if !self.is_idle() {
            return Note::Skipped;
        }
        if self.register.accepted() <= self.published {
            return Note::Published(self.published);
        }
        self.staged = self.register.sheet();
        self.phase = phase_after(&self.seen_out);
        Note::Began
    }

    // Takes the writer's next step.
    fn write(&mut self) -> Note
        ensures { (self.new, result) ≡ transition self.old Writer }
    {
        match self.phase {
            Phase::Idle => Note::Skipped,
            Phase::Seeing => self.see(),
            Phase::Filling(k) => self.fill(k),
            Phase::Swapping => self.swap(),
        }
    }

    // Loads the pin of the first reader that is not quiescent.
    fn see(&mut self) -> Note
        requires { self.old.writer.phase ≡ Seeing }
        ensures { (self.new, result) ≡ transition self.old Writer }
    {
        let r = self.seen_out.first_false();
        if self.table.load(pin(r)) != 0 {
            self.phase = Phase::Idle;
            return Note::Busy(r + 1);
        }
        self.seen_out.set(r);
        self.phase = phase_after(&self.seen_out);
        Note::Moved
    }

    // Stores a word of the copy that is not published.
    fn fill(&mut self, k: u64) -> Note
        requires { self.old.writer.phase ≡ Filling k }
        ensures { (self.new, result) ≡ transition self.old Writer }
    {
        let word = self.staged.words()[k as usize];
        self.table.store(copy_word(1 - self.side, k as usize), word);
        self.phase = phase_past(k);
        Note::Moved
    }

    // Stores side, which publishes the staged sheet.
    fn swap(&mut self) -> Note
        requires { self.old.writer.phase ≡ Swapping }
        ensures { (self.new, result) ≡ transition self.old Writer }
    {
        self.side = 1 - self.side;
        self.table.store(SIDE, self.side);
        self.published = self.staged.front();
        self.seen_out.clear();
        self.phase = Phase::Idle;
        Note::Published(self.published)
    }

    // Takes the next step of the reader with this number, if there is one.
    fn read(&mut self, number: u8) -> Note
        ensures { (self.new, result) ≡ transition self.old (Reader number) }
    {
        if number == 0 || self.stages.len() < number {
            return Note::Skipped;
        }
        self.stages.advance(&mut self.table, number - 1)
    }

    // The machine's register.
    pub(crate) fn into_register(self) -> Register
        ensures { result ≡ self.ledger }
    {
        self.register
    }
}

// Filling begins once all readers are quiescent.
fn phase_after(seen_out: &Flags) -> Phase
    ensures { result ≡ (if all_true seen_out.now then Filling 0 else Seeing) }
{
    if seen_out.all_true() {
        Phase::Filling(0)
    } else {
        Phase::Seeing
    }
}

// After the last word, side is stored next.
fn phase_past(k: u64) -> Phase
    requires { k < COPY_WORDS }
    ensures { result ≡ (if k + 1 == COPY_WORDS then Swapping else Filling (k + 1)) }
{
    if k + 1 == COPY_WORDS as u64 {
        Phase::Swapping
    } else {
        Phase::Filling(k + 1)
    }
}
