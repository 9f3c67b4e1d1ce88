//! The readers of a board.
ghost use Rattle.std.specs.Prelude.{◌≡◌, ◌↔◌, ◌+◌, ◌≤◌, ◌++◌, ◌∷◌, ◌==◌, [], Some};
ghost use Rattle.std.specs.Prelude.{IsSome, IfSome, IsTrue, if◌then◌else◌};
ghost use Rattle.std.specs.Option.{option_map};
ghost use Rattle.std.specs.Arc.{arc_value};
ghost use Rattle.council_core.specs.Sheets.{front_of};
ghost use Rattle.two_copy_steps.specs.Stages.{last_step, reading_steps, sheet_read, steps_taken};
ghost use Rattle.two_copy_steps.specs.declared.views.Stage.TheVariants.{AtRest};
ghost use Rattle.board_share.specs.Readers.{HasLegalRecord, IsLegalSheet, IsReader, TookStep, last_front_of, last_of};
ghost use Rattle.board_share.specs.Readers.{TookSteps, WasReported, number_of, reader_at};

use crate::reader_steps::{advance, read_all};
use crate::rule::Board;
use crate::views::View;
use atomic_table::Seat;
use council_core::Sheet;
use std::fmt;
use std::fmt::{Debug, Formatter};
use std::marker::Model;
use std::sync::Arc;
use two_copy_steps::{READERS, ReaderStage};

/// The result of one reading.
#[derive(Clone, Copy, Debug)]
pub struct Reading {
    /// The sheet of the register, as it was published.
    pub sheet: Sheet,
}

/// A reader of a board. It reads one sheet after another, each in 37 steps. It never waits for the
/// writer, and may move to another thread.
#[derive(Drop)]
pub struct Reader {
    board: Arc<Board>,
    seat: Seat<(), View>,
    index: u8,
    stage: ReaderStage,
}

impl Model for Reader {
    ghost use Rattle.board_share.specs.Readers.{ReaderState, IsReader, reader_at};
    ghost use Rattle.std.specs.Option.{option_map};
    ghost use Rattle.std.specs.Arc.{arc_value};

    ghost Value = { ReaderState };

    ghost view = { λ r. reader_at (arc_value r.board).shared.table_id r.seat.me.0 r.index r.stage };

    ghost invariant = { λ r. IsReader (arc_value r.board).shared.table_id r.seat.table_id r.seat.me
        (reader_at (arc_value r.board).shared.table_id r.seat.me.0 r.index r.stage) };
}

impl Debug for Reader {
    fn fmt<W: fmt::Write>(&self, f: &mut Formatter<W>) -> fmt::Result {
        f.debug_struct("Reader").finish_non_exhaustive()
    }
}

impl Reader {
    // The reader of a seat, with no readings.
    pub(crate) fn new(board: Arc<Board>, seat: Seat<(), View>, index: u8) -> Reader
        requires { IsReader (arc_value board).shared.table_id seat.table_id seat.me
            (reader_at (arc_value board).shared.table_id seat.me.0 index AtRest) }
        ensures { result ≡ reader_at (arc_value board).shared.table_id seat.me.0 index AtRest }
    {
        Reader {
            board,
            seat,
            index,
            stage: ReaderStage::new(),
        }
    }

    /// The reader's number, counted from 1.
    pub fn number(&self) -> u8
        ensures same { result ≡ number_of self.now }
        ensures bound { result ≤ READERS }
    {
        self.index + 1
    }

    /// Whether no reading is in progress.
    pub fn at_rest(&self) -> bool
        ensures same { IsTrue result ↔ (self.now.stage ≡ AtRest) }
    {
        self.stage.is_at_rest()
    }

    /// Takes the next of the 37 steps of a reading: one load or one store of one word. The last
    /// step returns the reading; every other step returns `None`.
    pub fn step(&mut self) -> Option<Reading>
        ensures table { self.new.table ≡ self.old.table }
        ensures opening { self.new.opening ≡ self.old.opening }
        ensures number { number_of self.new ≡ number_of self.old }
        ensures step { TookStep self.old self.new }
        ensures count { steps_taken self.new.stage
            ≡ (if steps_taken self.old.stage == last_step then 0 else steps_taken self.old.stage + 1) }

        // The reading that the step ends, if it is the last step of one.
        ensures answer { IsSome result ↔ (steps_taken self.old.stage ≡ last_step) }
        ensures words { option_map (λ x. x.sheet) result ≡ sheet_read self.old.stage }
        ensures last { IfSome result (λ x. last_of self.new ≡ Some x.sheet) }
        ensures record_legal { HasLegalRecord self.new }

        // The event that the step added to the board's history, and its output.
        ensures steps { TookSteps 1 self.old self.new }
        ensures reported { IfSome result (λ x. WasReported self.new x.sheet) }
    {
        advance(&self.board, &mut self.seat, self.index, &mut self.stage)
    }

    /// Takes one reading, all of its 37 steps, and returns the sheet that is published at its
    /// second step.
    ///
    /// The reader must be at rest. If a caller that isn't proved calls it in the middle of a
    /// reading, that reading is abandoned and a new one begins.
    ///
    /// ```rust
    /// let reading = reader.read();
    /// let front = reading.sheet.front(); // the number of commands in the version read
    /// ```
    pub fn read(&mut self) -> Reading
        requires rest { self.old.stage ≡ AtRest }
        ensures table { self.new.table ≡ self.old.table }
        ensures opening { self.new.opening ≡ self.old.opening }
        ensures number { number_of self.new ≡ number_of self.old }
        ensures rest { self.new.stage ≡ AtRest }

        // The sheet that was read.
        ensures reading { self.new.readings ≡ self.old.readings ++ result.sheet ∷ [] }
        ensures last { last_of self.new ≡ Some result.sheet }
        ensures sheet { IsLegalSheet self.old.opening result.sheet }
        ensures not_older { last_front_of self.old ≤ front_of result.sheet }
        ensures record_legal { HasLegalRecord self.new }

        // The events that the call added to the board's history, and the output of the last one.
        ensures steps { TookSteps reading_steps self.old self.new }
        ensures reported { WasReported self.new result.sheet }
    {
        self.stage.give_up();
        read_all(&self.board, &mut self.seat, self.index)
    }
}
