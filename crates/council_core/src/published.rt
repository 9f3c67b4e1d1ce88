//! The register together with the sheet published last, which readers see.
ghost use Rattle.std.specs.Prelude.{◌≡◌, ◌≤◌, length, IfOk, IsOkUnless, Ok, OnErr};
ghost use Rattle.council_core.specs.Ledgers.{ledger_with, verdict_of};
ghost use Rattle.council_core.specs.Published.{sequential_as_of, sequential_taken_back};
ghost use Rattle.council_core.specs.Sequential.{WouldAccept, answered, ordered, published_sheet, response_to, submit};
ghost use Rattle.council_core.specs.Sheets.{IsSheet};
ghost use Rattle.council_core.specs.Verdicts.{Follows};
ghost use Rattle.council_core.specs.declared.refusals.Refusal.TheVariants.{OutOfMemory};

use crate::calls::{Answer, Order};
use crate::commands::Command;
use crate::refusals::Refusal;
use crate::registers::Register;
use crate::sheets::Sheet;
use std::alloc::Global;
use std::marker::Model;

/// A register and the sheet published last, which readers see. In contracts, it is the sequential
/// register: its ledger, and the number of commands published.
#[derive(Debug, Drop)]
pub struct PublishedRegister {
    register: Register,
    shown: Sheet,
}

impl Model for PublishedRegister {
    ghost use Rattle.council_core.specs.Sequential.{Sequential};
    ghost use Rattle.council_core.specs.Published.{IsShown, shown_as};

    ghost Value = { Sequential };

    ghost view = { λ p. shown_as p.register p.shown };

    ghost invariant = { λ p. IsShown p.register p.shown };
}

impl PublishedRegister {
    /// The register, with all its accepted commands published.
    ///
    /// ```rust
    /// let mut board = PublishedRegister::over(Register::start(alloc, &members, 1_000)?);
    /// board.answer(Order::Submit(Command::Open(chair)))?; // Answer::Accepted(1)
    /// assert_eq!(rt; board.shown().front(), 0);
    /// board.answer(Order::Publish)?; // Answer::Published(1)
    /// assert_eq!(rt; board.shown().front(), 1);
    /// ```
    pub fn over(register: Register) -> PublishedRegister
        ensures published { result ≡ record { ledger = register; published = length register.journal } }
    {
        let shown = register.sheet();
        PublishedRegister { register, shown }
    }

    /// The register as it stands.
    pub fn register(&self) -> &Register
        ensures same { result.now ≡ self.now.ledger }
    {
        &self.register
    }

    /// The sheet published last.
    pub fn shown(&self) -> &Sheet
        ensures published { result.now ≡ published_sheet self.now }
        ensures in_range { IsSheet result.now }
    {
        &self.shown
    }

    /// The number of published commands, from 0 to the number of accepted ones.
    pub fn published(&self) -> u32
        ensures number { result ≡ self.now.published }
        ensures within { result ≤ length self.now.ledger.journal }
    {
        self.shown.front()
    }

    /// Publishes all accepted commands, and returns their number.
    pub fn publish(&mut self) -> u32
        ensures number { result ≡ length self.old.ledger.journal }
        ensures published { self.new ≡ record self.old { published = length self.old.ledger.journal } }
    {
        self.shown = self.register.sheet();
        self.register.accepted()
    }

    /// Carries out a command without publishing it, and returns the number of accepted commands,
    /// including this one.
    ///
    /// # Errors
    ///
    /// Those of `Register::apply`; nothing has changed then.
    pub fn apply(&mut self, command: Command) -> Result<u32, Refusal>
        ensures verdict { Follows (verdict_of self.old.ledger command) result OutOfMemory }
        ensures accepted { IfOk result
            (λ n. (self.new ≡ record self.old { ledger = ledger_with self.old.ledger command })
            × (n ≡ length self.new.ledger.journal)) }
        ensures unchanged { OnErr result (self.new ≡ self.old) }
    {
        self.register.apply(command)
    }

    // Submits a command, and publishes nothing.
    fn submit(&mut self, command: Command) -> Result<Answer, Refusal>
        ensures replied { IfOk result (λ a. answered a ≡ (response_to self.old (submit command)).1) }
        ensures after { IfOk result (λ _. self.new ≡ (response_to self.old (submit command)).0) }
        ensures memory { IsOkUnless result OutOfMemory }
        ensures acceptable { OnErr result (verdict_of self.old.ledger command ≡ Ok tt) }
        ensures unchanged { OnErr result (self.new ≡ self.old) }
    {
        match self.apply(command) {
            Ok(accepted) => Ok(Answer::Accepted(accepted)),
            Err(Refusal::OutOfMemory) => Err(Refusal::OutOfMemory),
            Err(why) => Ok(Answer::Refused(why)),
        }
    }

    /// Carries out an order, and answers it. A refusal of the register is an answer.
    ///
    /// # Errors
    ///
    /// `Refusal::OutOfMemory` if memory could not be allocated for a command that would be accepted;
    /// nothing has changed then.
    pub fn answer(&mut self, order: Order) -> Result<Answer, Refusal>
        ensures replied { IfOk result (λ a. answered a ≡ (response_to self.old (ordered order)).1) }
        ensures after { IfOk result (λ _. self.new ≡ (response_to self.old (ordered order)).0) }
        ensures memory { IsOkUnless result OutOfMemory }
        ensures acceptable { OnErr result (WouldAccept self.old order) }
        ensures unchanged { OnErr result (self.new ≡ self.old) }
    {
        match order {
            Order::Submit(command) => return self.submit(command),
            Order::Publish => return Ok(Answer::Published(self.publish())),
        }
    }

    /// A copy of the register as it was after its first `accepted` commands, as
    /// `Register::as_of`. Those of its commands that are published here are published there.
    ///
    /// # Errors
    ///
    /// `Refusal::OutOfMemory` if memory could not be allocated.
    pub fn as_of(&self, alloc: Global, accepted: u32) -> Result<PublishedRegister, Refusal>
        ensures copied { IfOk result (λ p. p ≡ sequential_as_of self.now accepted) }
        ensures memory { IsOkUnless result OutOfMemory }
    {
        let register = self.register.as_of(alloc, accepted)?;
        let shown = if self.shown.front() <= accepted {
            self.shown
        } else {
            register.sheet()
        };
        Ok(PublishedRegister { register, shown })
    }

    /// Takes the register back, in place, to what it was after its first `accepted` commands; if it
    /// has accepted no more, nothing is taken back. Those of its commands that are published stay
    /// published, but no more than the first `published`. It allocates nothing, and takes the time of
    /// carrying out these commands again.
    ///
    /// ```rust
    /// let (accepted, published) = (board.register().accepted(), board.published());
    /// board.answer(Order::Submit(Command::Open(chair)))?;
    /// board.undo_to(accepted, published); // the chair was never opened
    /// ```
    pub fn undo_to(&mut self, accepted: u32, published: u32)
        ensures taken_back { self.new ≡ sequential_taken_back self.old accepted published }
    {
        let front = self.shown.front().min(published);
        self.shown = self.register.take_back(accepted, front);
    }
}
