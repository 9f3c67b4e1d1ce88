//! A reader that returns the indices of what it reads.
ghost use Rattle.std.specs.Prelude.{◌≡◌, ◌≤◌, ◌++◌, ◌∷◌, [], Some, replicate, IfOk, IfErr};
ghost use Rattle.council_core.specs.Sheets.{front_of};
ghost use Rattle.council_core.specs.declared.refusals.Refusal.TheVariants.{OutOfMemory};
ghost use Rattle.two_copy_steps.specs.declared.views.Stage.TheVariants.{AtRest};
ghost use Rattle.power_index.specs.Indices.{AreIndices, indices_of};
ghost use Rattle.board_share.specs.Readers.{HasLegalRecord, IsLegalSheet, TookSteps, WasReported, last_front_of, last_of};
ghost use Rattle.board_share.specs.Readers.{number_of};
ghost use Rattle.two_copy_steps.specs.Stages.{reading_steps};

use crate::readers::Reader;
use council_core::{Refusal, SHEET_WORDS, Sheet};
use majority_rule::Majority;
use power_index::{Evaluator, Indices};
use std::alloc::Global;
use std::marker::Model;

/// A reader with an evaluator: it reads sheets and returns their indices. In contracts, it is
/// always at rest.
#[derive(Debug, Drop)]
pub struct Analyst {
    reader: Reader,
    evaluator: Evaluator,
}

impl Model for Analyst {
    ghost use Rattle.board_share.specs.Analysts.{AnalystState};
    ghost use Rattle.two_copy_steps.specs.declared.views.Stage.TheVariants.{AtRest};
    ghost use Rattle.std.specs.Prelude.{◌≡◌};

    ghost Value = { AnalystState };

    ghost view = { λ a. record { reader = a.reader; sheet = a.evaluator } };

    ghost invariant = { λ a. a.reader.stage ≡ AtRest };
}

impl Analyst {
    /// An analyst with no readings over `reader`, which must be at rest.
    ///
    /// # Errors
    ///
    /// `OutOfMemory`, the only refusal. It comes with the reader, unchanged.
    pub fn new(alloc: Global, reader: Reader) -> Result<Analyst, (Reader, Refusal)>
        requires rest { reader.stage ≡ AtRest }
        ensures reader { IfOk result (λ a. a.reader ≡ reader) }
        ensures blank { IfOk result (λ a. a.sheet ≡ replicate SHEET_WORDS 0) }
        ensures returned { IfErr result (λ e. e.0 ≡ reader) }
        ensures memory { IfErr result (λ e. e.1 ≡ OutOfMemory) }
    {
        match Evaluator::new(alloc) {
            Ok(evaluator) => Ok(Analyst { reader, evaluator }),
            Err(why) => Err((reader, why)),
        }
    }

    /// Takes one reading, as by `Reader::read`, and returns the indices of its sheet at this
    /// majority, in the time of `Evaluator::set` and `Evaluator::evaluate`.
    ///
    /// ```rust
    /// let indices = analyst.ask(Majority::Half);
    /// let winning = indices.winning; // of `indices.coalitions` coalitions
    /// let sheet = analyst.sheet(); // the sheet that was read
    /// ```
    pub fn ask(&mut self, majority: Majority) -> Indices
        ensures table { self.new.reader.table ≡ self.old.reader.table }
        ensures opening { self.new.reader.opening ≡ self.old.reader.opening }
        ensures number { number_of self.new.reader ≡ number_of self.old.reader }

        // The sheet that the reader read.
        ensures reading { self.new.reader.readings ≡ self.old.reader.readings ++ self.new.sheet ∷ [] }
        ensures last { last_of self.new.reader ≡ Some self.new.sheet }
        ensures sheet { IsLegalSheet self.old.reader.opening self.new.sheet }
        ensures not_older { last_front_of self.old.reader ≤ front_of self.new.sheet }
        ensures record_legal { HasLegalRecord self.new.reader }

        // The indices of that sheet.
        ensures exact { AreIndices majority self.new.sheet result }
        ensures same { result ≡ indices_of majority self.new.sheet }

        // The events that the call added to the board's history, and the output of the last one.
        ensures steps { TookSteps reading_steps self.old.reader self.new.reader }
        ensures reported { WasReported self.new.reader self.new.sheet }
    {
        let reading = self.reader.read();
        let _changed = self.evaluator.set(&reading.sheet);
        self.evaluator.evaluate(majority)
    }

    /// The sheet of the last `ask`, or 34 zeros before the first.
    pub fn sheet(&self) -> Sheet
        ensures same { result ≡ self.now.sheet }
    {
        self.evaluator.sheet()
    }

    /// Returns the reader, at rest.
    pub fn into_reader(self) -> Reader
        ensures same { result ≡ self.reader }
        ensures rest { result.stage ≡ AtRest }
    {
        let Analyst { reader, .. } = self;
        reader
    }
}
