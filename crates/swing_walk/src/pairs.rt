//! The counts of the winning pairs of two lists, and the swings that follow from them.
ghost use Rattle.std.specs.Prelude.{◌≡◌, ℕ, ◌+◌, ◌*◌, ◌^◌, ◌<◌, ◌≤◌, slice_index};
ghost use Rattle.swing_walk.specs.Pairs.{winning_pairs, winning_with, swings_of};
ghost use Rattle.swing_walk.specs.Tallies.{slot_amount, tally_total};

use crate::partners::{BySize, OfAnySize};
use crate::positions::Route;
use crate::tally::MaskTally;
use crate::walking::walk;
use council_core::CHAIRS;
use half_sums::{HalfSums, SLOTS, SumList};

/// The numbers of winning pairs of a set of the left half and one of the right. For the halves of a
/// board, these pairs are its winning coalitions.
#[derive(Clone, Copy, Debug, PartialEq, Eq, Hash)]
pub struct Counts {
    /// Omega: the number of pairs with enough weight and enough chairs together (Coleman 1971).
    pub winning: u64,
    /// At each place, the number of these pairs that have its chair. Places 0 to 15 are the slots of
    /// the left half, and places 16 to 31 those of the right half plus 16.
    pub with_chair: [u64; CHAIRS],
}

/// Counts the pairs whose sums reach `quota`, in votes, and which have at least `least_size` chairs
/// together.
///
/// This takes one walk, up the left list and down the right one (Horowitz and Sahni 1974), and from
/// the other end at the same time. If `least_size` is not 0, the walk also counts by size the sets
/// that it has passed. This allocates nothing.
///
/// ```rust
/// left.rebuild(&[(0, 50), (1, 49), (2, 1)]); // two halves, `right` with no chair
/// let counts = count(&left, &right, 51, 0);
/// assert_eq!(rt; counts.winning, 3);
/// assert_eq!(rt; swings(&counts)[0], 3);
/// ```
pub fn count(left: &HalfSums, right: &HalfSums, quota: u64, least_size: u8) -> Counts
    ensures winning { result.winning ≡ winning_pairs quota least_size left.now right.now }
    ensures with_chair { (place : ℕ) → place < CHAIRS
        → slice_index result.with_chair place ≡ winning_with quota least_size place left.now right.now }
{
    count_lists(&left.ascending(), &right.ascending(), quota, least_size)
}

/// Like `count`, for two borrowed lists.
pub fn count_lists(left: &SumList, right: &SumList, quota: u64, least_size: u8) -> Counts
    ensures winning { result.winning ≡ winning_pairs quota least_size left.now right.now }
    ensures with_chair { (place : ℕ) → place < CHAIRS
        → slice_index result.with_chair place ≡ winning_with quota least_size place left.now right.now }
{
    let route = Route {
        rising: left.copy(),
        falling: right.copy(),
        quota,
        least_size,
    };
    if least_size == 0 {
        return walk(&route, OfAnySize {}, OfAnySize {});
    }
    let (front, back) = (BySize::start(&route.rising), BySize::start(&route.falling));
    walk(&route, front, back)
}

// The counts of a walk, from the amounts of its left and of its right sets.
pub(crate) fn counts_of(lefts: &MaskTally, rights: &MaskTally) -> Counts
    requires left_room { tally_total lefts.now < 2 ^ 63 }
    requires right_room { tally_total rights.now < 2 ^ 63 }
    ensures winning { result.winning ≡ tally_total lefts.now }
    ensures left { (slot : ℕ) → slot < SLOTS
        → slice_index result.with_chair slot ≡ slot_amount slot lefts.now }
    ensures right { (slot : ℕ) → slot < SLOTS
        → slice_index result.with_chair (SLOTS + slot) ≡ slot_amount slot rights.now }
{
    let mut with_chair = [0; CHAIRS];
    with_chair[..SLOTS].copy_from_slice(&lefts.by_slot());
    with_chair[SLOTS..].copy_from_slice(&rights.by_slot());
    Counts {
        winning: lefts.total(),
        with_chair,
    }
}

/// The number of swings of the chair at each place, 0 if no winning pair has it (Banzhaf 1965;
/// Felsenthal and Machover 1998). The counts of the two halves of a board meet the requirements,
/// and the results are then the swings by the definition.
pub fn swings(counts: &Counts) -> [u64; CHAIRS]
    requires bound { counts.now.winning ≤ 2 ^ 32 }
    requires within { (place : ℕ) → place < CHAIRS
        → slice_index counts.now.with_chair place ≤ counts.now.winning }
    requires half { (place : ℕ) → place < CHAIRS → 0 < slice_index counts.now.with_chair place
        → counts.now.winning ≤ 2 * slice_index counts.now.with_chair place }
    ensures each { (place : ℕ) → place < CHAIRS
        → slice_index result place ≡ swings_of counts.now.winning (slice_index counts.now.with_chair place) }
{
    let mut swings = [0; CHAIRS];
    for place in 0..CHAIRS {
        let with_chair = counts.with_chair[place];
        swings[place] = if with_chair == 0 {
            0
        } else {
            2 * with_chair - counts.winning
        };
    }
    swings
}
