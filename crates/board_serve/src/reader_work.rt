//! The work of a reader's thread.
ghost use Rattle.std.specs.Prelude.{◌≡◌, IfOk, IfErr, OnOk};
ghost use Rattle.two_copy_steps.specs.declared.views.Stage.TheVariants.{AtRest};
ghost use Rattle.board_serve.specs.Work.{CanAsk, HasAsked, IsClosed, IsRead, IsReadFrom};

use crate::gates::{Gate, Place, pass};
use board_share::{Analyst, Reader};
use board_text::Stop;
use council_core::Sheet;
use majority_rule::Majority;
use std::alloc::{AllocError, Global};

// An analyst, the number of its reader, the majorities of its readings, the sheets that it read,
// and for each sheet the number of winning coalitions that it returned.
#[derive(Drop)]
pub(crate) struct ReaderWork {
    pub(crate) analyst: Analyst,
    pub(crate) number: u8,
    pub(crate) asked: Vec<Majority>,
    pub(crate) sheets: Vec<Sheet>,
    pub(crate) winning: Vec<u64>,
}

impl ReaderWork {
    // The work of a reader, with an evaluator and room for its readings.
    pub(crate) fn new(
        alloc: Global,
        reader: Reader,
        asked: Vec<Majority>,
    ) -> Result<ReaderWork, AllocError>
        requires rest { reader.stage ≡ AtRest }
        ensures ready { IfOk result CanAsk }
        ensures reader { IfOk result (λ w. w.analyst.reader ≡ reader) }
        ensures asked { IfOk result (λ w. w.asked ≡ asked) }
    {
        let number = reader.number();
        let sheets = Vec::with_capacity(alloc, asked.len())?;
        let winning = Vec::with_capacity(alloc, asked.len())?;
        let Ok(analyst) = Analyst::new(alloc, reader) else {
            return Err(AllocError);
        };
        Ok(ReaderWork {
            analyst,
            number,
            asked,
            sheets,
            winning,
        })
    }

    // Takes one reading for each record, in order. A run has fewer readings than its input has
    // bytes, so the count never reaches the largest u32.
    fn ask_in_order<G: Gate>(&mut self, gate: &G) -> Result<(), Stop>
        requires ready { CanAsk self.old }
        ensures grown { OnOk result (IsReadFrom self.old.analyst self.new) }
        ensures read { OnOk result (IsRead self.old.asked.items self.new) }
        ensures closed { IfErr result IsClosed }
    {
        let mut count: u32 = 0;
        for majority in self.asked.as_slice() {
            count = count.saturating_add(1);
            pass(gate, Place::BeforeReading(self.number, count))?;
            let indices = self.analyst.ask(*majority);
            self.sheets.push_reserved(self.analyst.sheet());
            self.winning.push_reserved(indices.winning);
            pass(gate, Place::AfterReading(self.number, count))?;
        }
        Ok(())
    }

    // Does the reader's work and returns it.
    pub(crate) fn run<G: Gate>(self, gate: &G) -> Result<ReaderWork, Stop>
        requires ready { CanAsk self }
        ensures asked { HasAsked self result }
    {
        let mut work = self;
        work.ask_in_order(gate)?;
        Ok(work)
    }
}
