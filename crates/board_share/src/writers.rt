//! The writer of a board.
ghost use Rattle.std.specs.Prelude.{◌≡◌, ℕ, suc, ◌≤◌, true, false, length, None, Some, IfOk, IfErr, OnOk, OnErr, IsOk};
ghost use Rattle.std.specs.Prelude.{replicate};
ghost use Rattle.std.specs.Arc.{arc_value};
ghost use Rattle.std.specs.List.{last_or};
ghost use Rattle.std.specs.List.Sorted.{IsStrictlyIncreasing};
ghost use Rattle.council_core.specs.Rolls.{IsLegal};
ghost use Rattle.council_core.specs.Ledgers.{verdict_of, ledger_with};
ghost use Rattle.council_core.specs.Verdicts.{Follows};
ghost use Rattle.council_core.specs.declared.refusals.Refusal.TheVariants.{OutOfMemory};
ghost use Rattle.two_copy_steps.specs.declared.events.Note.TheVariants.{Busy as BusyAt, Published};
ghost use Rattle.two_copy_steps.specs.Actions.{all_true, first_false};
ghost use Rattle.two_copy_steps.specs.Lawful.{IsPrefix};
ghost use Rattle.two_copy_steps.specs.Publications.{StaySeen, seen_out_at};
ghost use Rattle.board_share.specs.Histories.{last_reported};
ghost use Rattle.board_share.specs.Writers.{IsWriter, TookTries, TookTry, cuts_after, has_pending, look_count};
ghost use Rattle.board_share.specs.Writers.{publication_steps, writer_at, seen_out_after};

use crate::rule::Board;
use crate::views::View;
use crate::writer_steps::publish_all;
use atomic_table::Seat;
use council_core::{Command, Refusal, Register};
use std::fmt::{Debug, Formatter};
use std::marker::Model;
use std::sync::{Arc, Wait};
use std::{fmt, thread};
use thiserror::Error;
use two_copy_steps::{Flags, READERS};

/// The publication was abandoned because a reader is in the middle of a reading.
#[derive(Clone, Copy, Debug, PartialEq, Eq, Error)]
#[error("reader {reader} is in the middle of a reading")]
pub struct Busy {
    /// The number of the blocking reader, counted from 1: the first whose pin was found at 1.
    pub reader: u8,
}

/// The writer of a board: it submits commands to the register and publishes those that were
/// accepted. Between its calls no publication is in progress.
#[derive(Drop)]
pub struct Writer {
    board: Arc<Board>,
    seat: Seat<(), View>,
    register: Register,
    side: u64,
    published: u32,
    seen_out: Flags,
}

impl Model for Writer {
    ghost use Rattle.board_share.specs.Writers.{WriterState, IsWriter, held_by, writer_at};
    ghost use Rattle.std.specs.Arc.{arc_value};
    ghost use Rattle.std.specs.Prelude.{◌≡◌, length};

    ghost Value = { WriterState };

    ghost view = { λ w. writer_at (arc_value w.board).shared.table_id w.register w.seat.me.0 };

    ghost invariant = { λ w. IsWriter (arc_value w.board).shared.table_id w.seat.table_id w.seat.me w.register w.side
        w.seen_out × (w.published ≡ length (held_by w.seat.me.0).state.published) };
}

impl Debug for Writer {
    fn fmt<W: fmt::Write>(&self, f: &mut Formatter<W>) -> fmt::Result {
        f.debug_struct("Writer").finish_non_exhaustive()
    }
}

impl Writer {
    // The writer of a seat with the view of a board's start.
    pub(crate) fn new(
        board: Arc<Board>,
        seat: Seat<(), View>,
        register: Register,
        readers: u8,
    ) -> Writer
        requires bound { readers ≤ READERS }
        requires seat { IsWriter (arc_value board).shared.table_id seat.table_id seat.me register 0
            (replicate readers true) }
        requires published { (writer_at (arc_value board).shared.table_id register seat.me.0).published
            ≡ register.journal }
        ensures { result ≡ writer_at (arc_value board).shared.table_id register seat.me.0 }
    {
        Writer {
            board,
            seat,
            side: 0,
            published: register.accepted(),
            seen_out: Flags::start(readers),
            register,
        }
    }

    /// Submits a command to the register and returns the number of commands accepted so far,
    /// including this one. Nothing is published. Takes the time of `Register::apply`.
    ///
    /// ```rust
    /// let accepted = writer.submit(Command::Open(chair))?;
    /// let published = writer.publish(rt);
    /// ```
    ///
    /// # Errors
    ///
    /// Those of `Register::apply`, in the same order. The writer is then unchanged.
    pub fn submit(&mut self, command: Command) -> Result<u32, Refusal>
        ensures verdict { Follows (verdict_of self.old.ledger command) result OutOfMemory }
        ensures accepted { IfOk result
            (λ n. (self.new.ledger ≡ ledger_with self.old.ledger command) × (n ≡ length self.new.ledger.journal)) }
        ensures refused { OnErr result (self.new ≡ self.old) }
        ensures table { self.new.table ≡ self.old.table }
        ensures published { self.new.published ≡ self.old.published }
        ensures cuts { self.new.cuts ≡ self.old.cuts }
        ensures seen_out { self.new.seen_out ≡ self.old.seen_out }
        ensures history { self.new.history ≡ self.old.history }
    {
        self.register.apply(command)
    }

    /// Publishes all accepted commands and returns their number. Does not wait for readers. With
    /// nothing pending, it returns the number published and changes nothing. Takes a load for each
    /// reader that isn't quiescent, and 35 stores.
    ///
    /// ```rust
    /// match writer.try_publish() {
    ///     Ok(front) => published = front,
    ///     Err(busy) => blocking = busy.reader,
    /// }
    /// ```
    ///
    /// # Errors
    ///
    /// `Busy` if a reader that isn't quiescent is found in the middle of a reading. Nothing is
    /// published then; quiescent readers stay so, and those found at rest become quiescent.
    pub fn try_publish(&mut self) -> Result<u32, Busy>
        ensures table { self.new.table ≡ self.old.table }
        ensures ledger { self.new.ledger ≡ self.old.ledger }
        ensures readers { length self.new.seen_out ≡ length self.old.seen_out }

        // Whether it succeeds.
        ensures sure { all_true self.old.seen_out ≡ true → IsOk result }
        ensures nothing_pending { has_pending self.old ≡ false → IsOk result }
        ensures still { has_pending self.old ≡ false → self.new ≡ self.old }

        // All commands are published.
        ensures front { IfOk result (λ n. n ≡ length self.old.ledger.journal) }
        ensures published { OnOk result (self.new.published ≡ self.old.ledger.journal) }
        ensures cuts { OnOk result (self.new.cuts ≡ cuts_after self.old) }
        ensures seen_out { OnOk result (self.new.seen_out ≡ seen_out_after self.old) }

        // A reader blocks the publication.
        ensures unchanged { OnErr result
            ((self.new.published ≡ self.old.published) × (self.new.cuts ≡ self.old.cuts)) }
        ensures stay { OnErr result (StaySeen self.old.seen_out self.new.seen_out) }
        ensures busy { IfErr result
            (λ b. (b.reader ≡ suc (first_false self.new.seen_out)) × (all_true self.new.seen_out ≡ false)) }

        // The events that the call added to the board's history, and the output of the last one.
        ensures steps { has_pending self.old ≡ true
            → OnOk result (TookTry (publication_steps self.old.seen_out) self.old self.new) }
        ensures gave_up { OnErr result (TookTry (look_count self.old.seen_out self.new.seen_out) self.old self.new) }
        ensures reported { has_pending self.old ≡ true
            → IfOk result (λ n. last_reported self.new.history ≡ Some (Published n)) }
        ensures blocking { IfErr result (λ b. last_reported self.new.history ≡ Some (BusyAt b.reader)) }
    {
        let front = self.register.journal().len() as u32;
        if front <= self.published {
            return Ok(self.published);
        }
        publish_all(
            &self.board,
            &mut self.seat,
            &self.register,
            self.side,
            &mut self.seen_out,
        )?;
        self.side = 1 - self.side;
        self.published = front;
        self.seen_out.clear();
        Ok(front)
    }

    /// Publishes all accepted commands and returns their number: calls `try_publish` until it
    /// succeeds, and yields to other threads between the calls. It never returns if a reader that
    /// blocks it was dropped in the middle of a reading.
    pub fn publish<R: Wait>(&mut self, rt: &R) -> u32
        ensures table { self.new.table ≡ self.old.table }
        ensures ledger { self.new.ledger ≡ self.old.ledger }
        ensures front { result ≡ length self.old.ledger.journal }
        ensures published { self.new.published ≡ self.old.ledger.journal }
        ensures cuts { self.new.cuts ≡ cuts_after self.old }
        ensures seen_out { self.new.seen_out ≡ seen_out_after self.old }
        ensures still { has_pending self.old ≡ false → self.new ≡ self.old }

        // The events that the call added to the board's history, and the output of the last one.
        ensures steps { has_pending self.old ≡ true → (tries : ℕ) × TookTries tries self.old self.new }
        ensures reported { has_pending self.old ≡ true → last_reported self.new.history ≡ Some (Published result) }
    {
        for _ in rt.forever() {
            if let Ok(front) = self.try_publish() {
                return front;
            }
            thread::yield_now();
        }
        unreachable!()
    }

    /// The accepted commands, in order.
    pub fn journal(&self) -> &[Command]
        ensures commands { result.now ≡ self.now.ledger.journal }
        ensures legal { IsLegal self.now.ledger.opening self.now.ledger.journal }
    {
        self.register.journal()
    }

    /// The number of published commands: the last cut.
    pub fn published(&self) -> u32
        ensures number { result ≡ length self.now.published }
        ensures begins { IsPrefix self.now.published self.now.ledger.journal }
        ensures ascending { IsStrictlyIncreasing self.now.cuts }
        ensures last_cut { last_or None self.now.cuts ≡ Some result }
    {
        self.published
    }

    /// Whether the reader of this number, counted from 1, is quiescent: since the last publication
    /// the writer has found it at rest, or no publication was made since the start. False for a
    /// number out of range.
    pub fn seen_out(&self, reader: u8) -> bool
        ensures same { result ≡ seen_out_at self.now.seen_out reader }
    {
        self.seen_out.has(reader)
    }
}
