//! The indices of a sheet, counted in memory that the caller lends. No call here allocates.
ghost use Rattle.std.specs.Prelude.{◌≡◌, ◌≤◌, length, replicate, sum_by};
ghost use Rattle.std.specs.List.{enumerate_from};
ghost use Rattle.council_core.specs.declared.limits.TheConstants.{MAX_TOTAL};
ghost use Rattle.half_sums.specs.declared.lists.TheConstants.{ROOM};
ghost use Rattle.half_sums.specs.Entries.{AreSubsets};
ghost use Rattle.power_index.specs.Indices.{AreIndices, indices_of};

use crate::halves::{chairs_of, on_left, weights_of};
use crate::indices::Indices;
use crate::listed::indices_from;
use council_core::Sheet;
use half_sums::{ROOM, SLOTS, SumList, list_subsets};
use majority_rule::Majority;
use std::marker::Model;

/// Memory for the lists of both halves of a sheet. Its contents before a `LentEvaluator` is made
/// over it have no effect, and its contents afterwards have no meaning.
#[repr(C)]
#[derive(Drop)]
pub struct ListRoom {
    /// The words of the left half's sets.
    pub left: [u64; ROOM],
    /// The words of the right half's sets.
    pub right: [u64; ROOM],
}

impl ListRoom {
    /// Room filled with zeros: 1,048,576 bytes, by value.
    pub fn new() -> ListRoom
        ensures left { result.left ≡ replicate ROOM 0 }
        ensures right { result.right ≡ replicate ROOM 0 }
    {
        ListRoom {
            left: [0; ROOM],
            right: [0; ROOM],
        }
    }
}

/// A sheet, with the lists of its halves in memory that the caller lends.
#[derive(Debug, Drop)]
pub struct LentEvaluator<'a> {
    sheet: Sheet,
    left: SumList<'a>,
    right: SumList<'a>,
}

impl<'a> Model for LentEvaluator<'a> {
    ghost use Rattle.std.specs.Prelude.{ℕ, List};
    ghost use Rattle.power_index.specs.Halves.{AreHalves};

    ghost Value = { List ℕ };

    ghost view = { λ e. e.sheet };

    ghost invariant = { λ e. AreHalves e.sheet e.left e.right };
}

impl<'a> LentEvaluator<'a> {
    /// Holds a sheet, and lists the sets of both of its halves in `room`, in time proportional to
    /// their number, at most 131,072.
    ///
    /// ```rust
    /// // `sheet: Sheet` as in the example of `Evaluator::evaluate`
    /// let mut room = ListRoom::new();
    /// let evaluator = LentEvaluator::over(&sheet, &mut room);
    /// assert_eq!(rt; evaluator.evaluate(Majority::Half).winning, 3);
    /// ```
    pub fn over(sheet: &Sheet, room: &'a mut ListRoom) -> LentEvaluator<'a>
        ensures held { result ≡ sheet.now }
    {
        // The proof uses these words: the weights of a sheet add up to at most `MAX_TOTAL`.
        let _words = sheet.words();
        let weights = weights_of(sheet);
        let (on_left, on_right) = weights.as_slice().split_at(on_left(weights.len()));
        let (left, right) = (&mut room.left, &mut room.right);
        let left = listed(on_left, left);
        let right = listed(on_right, right);
        LentEvaluator {
            sheet: *sheet,
            left,
            right,
        }
    }

    /// The indices of the sheet under this majority: by their definition (`exact`), and as a value
    /// that computes (`same`). Takes the time of `Evaluator::evaluate`.
    pub fn evaluate(&self, majority: Majority) -> Indices
        ensures exact { AreIndices majority self.now result }
        ensures same { result ≡ indices_of majority self.now }
    {
        indices_from(&self.sheet, &self.left, &self.right, majority)
    }
}

// Lists the sets of the chairs with these weights in a borrowed slice.
fn listed<'a>(weights: &[u64], words: &'a mut [u64]) -> SumList<'a>
    requires bound { length weights.now ≤ SLOTS }
    requires small { sum_by (λ n. n) weights.now ≤ MAX_TOTAL }
    requires room { length words.old ≡ ROOM }
    ensures subsets { AreSubsets (enumerate_from 0 weights.now) result }
{
    let count = 1usize << weights.len();
    list_subsets(chairs_of(weights).as_slice(), &mut words[..count])
}
