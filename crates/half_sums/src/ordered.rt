//! The ascending list of a half, and its rebuild in the memory that it owns.
ghost use Rattle.std.specs.Prelude.{◌≡◌, ℕ, ◌==◌, ◌^◌, ◌<◌, ◌≤◌};
ghost use Rattle.std.specs.Prelude.{List, [], ◌∷◌, length, map, IfOk, IsOkUnless, vec_len, vec_capacity};
ghost use Rattle.std.specs.List.{All, IsDistinct};
ghost use Rattle.council_core.specs.declared.refusals.Refusal.TheVariants.{OutOfMemory};
ghost use Rattle.council_core.specs.declared.limits.TheConstants.{MAX_TOTAL};
ghost use Rattle.council_core.specs.Sheets.{weight_of};
ghost use Rattle.half_sums.specs.declared.entry.Entry.{Entry};
ghost use Rattle.half_sums.specs.declared.lists.TheConstants.{ROOM};
ghost use Rattle.half_sums.specs.Entries.{entries_from, AreSubsets, IsHalf};

use crate::groups::SLOTS;
use crate::lists::{ROOM, SumList};
use crate::merge::double;
use council_core::Refusal;
use std::alloc::Global;
use std::marker::Model;

/// The subset sums of a half of up to sixteen chairs, ascending (Horowitz and Sahni 1974), in its
/// own memory. The memory is allocated once and cannot grow, so a rebuild allocates nothing.
#[derive(Debug, Drop)]
pub struct OrderedSums {
    words: Vec<u64>,
    // The index of the first set with `MAX_TOTAL` votes, or the number of sets.
    full: usize,
}

impl Model for OrderedSums {
    ghost Value = { List Entry };

    ghost view = { λ l. entries_from l.full l.words.items };

    ghost invariant = { λ l. (ROOM ≤ vec_capacity l.words) × IsHalf (entries_from l.full l.words.items) };
}

impl OrderedSums {
    /// The half with no chair, whose only set is the empty one. This allocates, once, room for
    /// `ROOM` sets of eight bytes each, which is enough for every half. The system supplies that
    /// memory page by page, as the lists need it.
    ///
    /// # Errors
    ///
    /// `Refusal::OutOfMemory` if memory could not be allocated.
    pub fn new(alloc: Global) -> Result<OrderedSums, Refusal>
        ensures empty { IfOk result (λ sums. sums ≡ record { sum = 0; mask = 0 } ∷ []) }
        ensures memory { IsOkUnless result OutOfMemory }
    {
        let mut words = Vec::with_capacity(alloc, ROOM)?;
        words.push(0)?;
        Ok(OrderedSums { words, full: 1 })
    }

    /// The sets of the half's chairs, ascending by sum. Sets with equal sums are in no specified
    /// order.
    pub fn ascending(&self) -> SumList<'_>
        ensures same { result ≡ self.now }
        ensures half { IsHalf result }
    {
        SumList::over(self.words.as_slice(), self.full)
    }

    /// Replaces the list by the sets of these chairs. A chair is its slot, from 0 to 15, and its
    /// weight in votes, which may be 0. This allocates nothing and always succeeds.
    pub fn rebuild(&mut self, chairs: &[(u8, u64)])
        requires slots { All (λ chair. chair.0 < SLOTS) chairs.now }
        requires distinct { IsDistinct (λ a b. a == b) (map (λ chair. chair.0) chairs.now) }
        requires small { weight_of chairs.now ≤ MAX_TOTAL }
        ensures subsets { AreSubsets chairs.now self.new }
    {
        set_length(&mut self.words, 1usize << chairs.len());
        self.full = fill(chairs, self.words.as_mut_slice());
    }
}

// Sets the length of a vector that has room for `count` words. It leaves the words unspecified.
fn set_length(words: &mut Vec<u64>, count: usize)
    requires room { count ≤ vec_capacity words.old }
    ensures count { vec_len words.new ≡ count }
    ensures room { vec_capacity words.old ≤ vec_capacity words.new }
{
    match words.resize(count, 0) {
        Ok(()) => {}
        Err(_) => unreachable!(),
    }
}

/// Lists the sets of these chairs, ascending by sum, in a borrowed slice, which has one word for
/// each set. The previous contents of the slice have no effect and are lost. A chair is its slot,
/// from 0 to 15, and its weight in votes.
///
/// ```rust
/// let chairs = [(0, 50), (1, 49), (2, 1)];
/// let list = list_subsets(&chairs, &mut words); // a slice of 8 words
/// assert_eq!(rt; list.at(7), Entry { sum: 100, mask: 0b111 });
/// ```
pub fn list_subsets<'a>(chairs: &[(u8, u64)], words: &'a mut [u64]) -> SumList<'a>
    requires slots { All (λ chair. chair.0 < SLOTS) chairs.now }
    requires distinct { IsDistinct (λ a b. a == b) (map (λ chair. chair.0) chairs.now) }
    requires small { weight_of chairs.now ≤ MAX_TOTAL }
    requires room { length words.old ≡ 2 ^ length chairs.now }
    ensures subsets { AreSubsets chairs.now result }
    ensures half { IsHalf result }
{
    let full = fill(chairs, words);
    SumList::over(words, full)
}

// Writes the words of the sets of these chairs, ascending. Returns the index of the first set with
// `MAX_TOTAL` votes, or the number of sets.
fn fill(chairs: &[(u8, u64)], words: &mut [u64]) -> usize
    requires slots { All (λ chair. chair.0 < SLOTS) chairs.now }
    requires distinct { IsDistinct (λ a b. a == b) (map (λ chair. chair.0) chairs.now) }
    requires small { weight_of chairs.now ≤ MAX_TOTAL }
    requires room { length words.old ≡ 2 ^ length chairs.now }
    ensures subsets { AreSubsets chairs.now (entries_from result words.new) }
    ensures half { IsHalf (entries_from result words.new) }
    ensures room { length words.new ≡ length words.old }
{
    words[0] = 0;
    let (mut count, mut full) = (1, 1);
    for at in (0..chairs.len()).rev() {
        let (slot, weight) = chairs[at];
        full = double(count, full, weight, 1u16 << slot, words);
        count = 2 * count;
    }
    full
}
