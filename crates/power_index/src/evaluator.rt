//! An evaluator: a sheet with the subset sums of its two halves, in its own memory.
ghost use Rattle.std.specs.Prelude.{◌≡◌, IfOk, IsOkUnless, replicate};
ghost use Rattle.council_core.specs.declared.refusals.Refusal.TheVariants.{OutOfMemory};
ghost use Rattle.power_index.specs.Halves.{changed_blocks};
ghost use Rattle.power_index.specs.Indices.{AreIndices, indices_of};

use crate::halves::{differ, on_left, refresh, weights_of};
use crate::indices::Indices;
use crate::listed::indices_from;
use council_core::{Refusal, SHEET_WORDS, Sheet};
use half_sums::{OrderedSums, SLOTS};
use majority_rule::Majority;
use std::alloc::Global;
use std::marker::Model;

/// A sheet, with the lists from which its indices are counted.
///
/// `new` allocates all memory: for each half a list of 65,536 sets of eight bytes, 1,048,576 bytes
/// in total. No other call allocates.
#[derive(Debug, Drop)]
pub struct Evaluator {
    sheet: Sheet,
    left: OrderedSums,
    right: OrderedSums,
}

impl Model for Evaluator {
    ghost use Rattle.std.specs.Prelude.{ℕ, List};
    ghost use Rattle.power_index.specs.Halves.{AreHalves};

    ghost Value = { List ℕ };

    ghost view = { λ e. e.sheet };

    ghost invariant = { λ e. AreHalves e.sheet e.left e.right };
}

impl Evaluator {
    /// An evaluator that holds the sheet of zeros: no chair is open, there are no votes, and no
    /// command has been accepted.
    ///
    /// # Errors
    ///
    /// `Refusal::OutOfMemory` if memory for the two halves could not be allocated.
    pub fn new(alloc: Global) -> Result<Evaluator, Refusal>
        ensures blank { IfOk result (λ e. e ≡ replicate SHEET_WORDS 0) }
        ensures memory { IsOkUnless result OutOfMemory }
    {
        let sheet = blank();
        let left = OrderedSums::new(alloc)?;
        let right = OrderedSums::new(alloc)?;
        Ok(Evaluator { sheet, left, right })
    }

    /// Replaces the sheet. Returns the number of blocks, of chairs 1 to 16 and of chairs 17 to 32,
    /// whose words differ from the previous sheet: 0, 1 or 2. The total and the front belong to
    /// neither block. It doesn't say which lists are rebuilt.
    ///
    /// The open chairs, in the order of their numbers, are split in the middle into two lists; an
    /// odd one belongs to the first. A list is rebuilt if its weights differ from the previous ones,
    /// in time proportional to its number of sets: 2^k for k chairs.
    pub fn set(&mut self, sheet: &Sheet) -> u8
        ensures changed { result ≡ changed_blocks self.old sheet.now }
        ensures held { self.new ≡ sheet.now }
    {
        let old = self.sheet.words();
        let new = sheet.words();
        let (before, after) = (weights_of(&self.sheet), weights_of(sheet));
        let (old_left, old_right) = before.as_slice().split_at(on_left(before.len()));
        let (new_left, new_right) = after.as_slice().split_at(on_left(after.len()));
        refresh(&mut self.left, old_left, new_left);
        refresh(&mut self.right, old_right, new_right);
        self.sheet = *sheet;
        differ(&old, &new, 0) + differ(&old, &new, SLOTS)
    }

    /// The indices of the sheet under this majority, counted by one walk over both lists: in time
    /// proportional to the number of their sets, at most 131,072.
    ///
    /// The clause `exact` gives every field by its definition, and the quota and the least size by
    /// what wins. The clause `same` gives the result as a value that computes.
    ///
    /// ```rust
    /// let mut evaluator = Evaluator::new(alloc)?;
    /// evaluator.set(&sheet); // chairs 1, 2 and 3 are open, with 50, 49 and 1 of 100 votes
    /// let indices = evaluator.evaluate(Majority::Half);
    /// assert_eq!(rt; (indices.quota, indices.winning), (51, 3));
    /// assert_eq!(rt; indices.rows[0].banzhaf, Fraction { num: 3, den: 4 });
    /// ```
    pub fn evaluate(&self, majority: Majority) -> Indices
        ensures exact { AreIndices majority self.now result }
        ensures same { result ≡ indices_of majority self.now }
    {
        indices_from(
            &self.sheet,
            &self.left.ascending(),
            &self.right.ascending(),
            majority,
        )
    }

    /// The current sheet: the last one given to `set`, or the sheet of zeros.
    pub fn sheet(&self) -> Sheet
        ensures held { result ≡ self.now }
    {
        self.sheet
    }
}

// The sheet of zeros.
fn blank() -> Sheet
    ensures zeros { result ≡ replicate SHEET_WORDS 0 }
{
    match Sheet::from_words(&[0; SHEET_WORDS]) {
        Ok(sheet) => sheet,
        Err(_) => unreachable!(),
    }
}
