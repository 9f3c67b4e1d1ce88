//! The desk: the register and its published sheet, with the indices that readers ask for.
ghost use Rattle.std.specs.Prelude.{◌≡◌, length, IfOk, IsOkUnless, IsTrue, OnErr};
ghost use Rattle.council_core.specs.Sequential.{WouldAccept, answered, ordered, published_sheet, response_to};
ghost use Rattle.power_index.specs.Indices.{indices_of};
ghost use Rattle.board_text.specs.declared.stops.Stop.TheVariants as stop;

use board_text::Stop;
use council_core::{Answer, Order, PublishedRegister, Register, Sheet};
use majority_rule::Majority;
use power_index::{Evaluator, Indices};
use std::alloc::Global;
use std::marker::Model;

// A register with the sheet published last, the evaluator of its indices, and the indices kept for
// the next reading, with their sheet. In contracts, a desk is the sequential register.
#[derive(Drop)]
pub(crate) struct Desk {
    board: PublishedRegister,
    evaluator: Evaluator,
    counted: Option<Indices>,
    sheet: Sheet,
}

impl Model for Desk {
    ghost use Rattle.council_core.specs.Sequential.{Sequential};
    ghost use Rattle.board_runs.specs.Desks.{AreCounted};

    ghost Value = { Sequential };

    ghost view = { λ d. d.board };

    ghost invariant = { λ d. AreCounted d.counted d.sheet };
}

// Whether two sheets are the same.
fn is_same(kept: &Sheet, shown: &Sheet) -> bool
    ensures { IsTrue result → kept.now ≡ shown.now }
{
    kept == shown
}

impl Desk {
    // A desk that shows the register in its present state.
    pub(crate) fn open(alloc: Global, register: Register) -> Result<Desk, Stop>
        ensures opened { IfOk result (λ d. d ≡ record { ledger = register; published = length register.journal }) }
        ensures memory { IsOkUnless result stop.OutOfMemory }
    {
        let evaluator = Evaluator::new(alloc)?;
        let sheet = evaluator.sheet();
        Ok(Desk {
            board: PublishedRegister::over(register),
            evaluator,
            counted: None,
            sheet,
        })
    }

    // Carries out an order.
    pub(crate) fn answer(&mut self, order: Order) -> Result<Answer, Stop>
        ensures replied { IfOk result (λ a. answered a ≡ (response_to self.old (ordered order)).1) }
        ensures after { IfOk result (λ a. self.new ≡ (response_to self.old (ordered order)).0) }
        ensures memory { IsOkUnless result stop.OutOfMemory }
        ensures acceptable { OnErr result (WouldAccept self.old order) }
    {
        Ok(self.board.answer(order)?)
    }

    // The indices of the sheet published last. They are counted only if the indices kept are not
    // those.
    pub(crate) fn indices(&mut self, majority: Majority) -> Indices
        ensures counted { result ≡ indices_of majority (published_sheet self.old) }
        ensures unchanged { self.new ≡ self.old }
    {
        let sheet = self.board.shown();
        match self.counted.take() {
            Some(indices) if indices.majority == majority && is_same(&self.sheet, sheet) => indices,
            _ => {
                self.evaluator.set(sheet);
                self.evaluator.evaluate(majority)
            }
        }
    }

    // Keeps indices of the sheet published last for the next reading.
    pub(crate) fn keep(&mut self, indices: Indices)
        requires counted { indices ≡ indices_of indices.majority (published_sheet self.old) }
        ensures unchanged { self.new ≡ self.old }
    {
        self.sheet = *self.board.shown();
        self.counted = Some(indices);
    }
}
