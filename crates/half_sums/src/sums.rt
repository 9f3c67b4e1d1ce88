//! The ascending list of a half, and the same sets grouped by size.
ghost use Rattle.std.specs.Prelude.{◌≡◌, ◌==◌, ◌<◌, ◌≤◌};
ghost use Rattle.std.specs.Prelude.{List, [], ◌∷◌, length, map, take, IfOk, IsOkUnless};
ghost use Rattle.std.specs.Box.{boxed_slice_items};
ghost use Rattle.std.specs.List.{All, IsDistinct};
ghost use Rattle.std.specs.List.Sorted.{IsPermutation};
ghost use Rattle.council_core.specs.declared.refusals.Refusal.TheVariants.{OutOfMemory};
ghost use Rattle.council_core.specs.declared.limits.TheConstants.{MAX_TOTAL};
ghost use Rattle.council_core.specs.Sheets.{weight_of};
ghost use Rattle.half_sums.specs.declared.entry.Entry.{Entry};
ghost use Rattle.half_sums.specs.declared.lists.TheConstants.{ROOM};
ghost use Rattle.half_sums.specs.Entries.{AreSubsets, IsHalf};
ghost use Rattle.half_sums.specs.Groups.{group_of, all_groups, AreGroups};

use crate::choices::part;
use crate::groups::{SIZES, SLOTS, STARTS, regroup};
use crate::lists::ROOM;
use crate::{Entry, OrderedSums, SumList};
use council_core::Refusal;
use std::alloc::Global;
use std::boxed::BoxedSlice;
use std::marker::Model;

// The empty set.
const NO_CHAIR: Entry = Entry { sum: 0, mask: 0 };

/// The subset sums of a half of up to sixteen chairs, ascending, and the same sets grouped by size
/// (Horowitz and Sahni 1974).
#[derive(Debug, Drop)]
pub struct HalfSums {
    ordered: OrderedSums,
    // The same sets grouped by size, followed by those left from earlier halves.
    groups: BoxedSlice<Entry>,
    starts: [usize; STARTS],
}

impl Model for HalfSums {
    ghost Value = { List Entry };

    ghost view = { λ h. h.ordered };

    ghost invariant = { λ h. IsHalf h.ordered
        × AreGroups h.ordered (take (length h.ordered) (boxed_slice_items h.groups)) h.starts
        × (length (boxed_slice_items h.groups) ≡ ROOM) };
}

impl HalfSums {
    /// The half with no chair, whose only set is the empty one. This allocates, once, room for two
    /// lists of `ROOM` sets, one with eight bytes for each set and one with sixteen, which is enough
    /// for every half.
    ///
    /// # Errors
    ///
    /// `Refusal::OutOfMemory` if memory could not be allocated.
    ///
    /// ```rust
    /// let mut half = HalfSums::new(alloc)?;
    /// half.rebuild(&[(0, 50), (1, 49), (2, 1)]);
    /// assert_eq!(rt; half.ascending().len(), 8);
    /// assert!(rt; half.group(3) == [Entry { sum: 100, mask: 7 }].as_slice());
    /// ```
    pub fn new(alloc: Global) -> Result<HalfSums, Refusal>
        ensures empty { IfOk result (λ h. h ≡ record { sum = 0; mask = 0 } ∷ []) }
        ensures memory { IsOkUnless result OutOfMemory }
    {
        let ordered = OrderedSums::new(alloc)?;
        let mut groups = Vec::from_elem(alloc, NO_CHAIR, ROOM)?.into_boxed_slice();
        let starts = regroup(&ordered.ascending(), &mut groups);
        Ok(HalfSums {
            ordered,
            groups,
            starts,
        })
    }

    /// The sets of the half's chairs, ascending by sum. Sets with equal sums are in no specified
    /// order.
    pub fn ascending(&self) -> SumList<'_>
        ensures same { result ≡ self.now }
        ensures half { IsHalf result }
    {
        self.ordered.ascending()
    }

    /// The sets of the half's chairs grouped by size, from 0 to 16 chairs, and ascending by sum
    /// within each size.
    pub fn entries(&self) -> &[Entry]
        ensures grouped { result.now ≡ all_groups self.now }
        ensures each_once { IsPermutation self.now result.now }
    {
        &self.groups[..self.ordered.ascending().len()]
    }

    /// The sets of exactly `size` chairs, ascending by sum; empty if the half has fewer chairs.
    pub fn group(&self, size: u8) -> &[Entry]
        ensures same { result.now ≡ group_of size self.now }
        ensures half { IsHalf result.now }
    {
        let size = usize::from(size);
        let groups = &self.groups[..self.ordered.ascending().len()];
        if size >= SIZES {
            return &[];
        }
        part(groups, self.starts[size], self.starts[size + 1])
    }

    /// Replaces the lists by the sets of these chairs. A chair is its slot, from 0 to 15, and its
    /// weight in votes, which may be 0. This allocates nothing and always succeeds.
    pub fn rebuild(&mut self, chairs: &[(u8, u64)])
        requires slots { All (λ chair. chair.0 < SLOTS) chairs.now }
        requires distinct { IsDistinct (λ a b. a == b) (map (λ chair. chair.0) chairs.now) }
        requires small { weight_of chairs.now ≤ MAX_TOTAL }
        ensures subsets { AreSubsets chairs.now self.new }
    {
        self.ordered.rebuild(chairs);
        self.starts = regroup(&self.ordered.ascending(), &mut self.groups);
    }
}
