//! Counters of the partners of the sets that a chain of a walk passes.
//!
//! The order of the walk determines the sets that reach the quota together with a set: if the set
//! is falling, all rising sets that are left, otherwise all falling sets that were passed. If no
//! size is required, these are its partners, and their number follows from the positions. Otherwise
//! its partners are those of them with which it has enough chairs, counted with tables of the
//! passed sets.
ghost use Rattle.std.specs.Prelude.{◌≡◌, ◌+◌, ◌<◌, ◌≤◌, length};
ghost use Rattle.swing_walk.specs.Sizes.{partners_next, CountsBySize};
ghost use Rattle.swing_walk.specs.Walks.{IsNext, PartnerCounts, HasPassed, position_after};

use crate::positions::{Next, Position, Route};
use crate::sides::{FALLING, RISING, count_on};
use crate::sizes::{SizeTally, lacking};
use half_sums::{ROOM, STARTS, SumList, either, starts_of};

// Counts the partners of the set that is passed next.
pub(crate) trait Partners: Copy {
    // The state of a counter: it has counted the first `up` rising sets and all falling sets from
    // `rest` on.
    ghost counts: { Self → PartnerCounts };

    // Passes the next set after `walked` steps, and returns the number of its partners.
    fn pass(&mut self, route: &Route, position: Position, walked: usize, next: Next) -> u64
        // The position of the chain.
        requires up { position.up ≤ length route.now.rising }
        requires rest { position.rest ≤ length route.now.falling }
        requires bound { position.up + length route.now.falling < position.rest + ROOM }
        requires passed { HasPassed walked position route.now.falling }
        requires next { IsNext next route.now position }
        requires counted { counts self.old route.now position }

        // The next position.
        ensures partners { result ≡ partners_next next.falls next route.now position }
        ensures counted { counts self.new route.now (position_after next.falls position) };
}

// A counter for walks without a least size.
#[derive(Clone, Copy)]
pub(crate) struct OfAnySize {}

impl Partners for OfAnySize {
    ghost counts = { λ _ route _. route.least_size ≡ 0 };

    #[inline(always)]
    fn pass(&mut self, route: &Route, position: Position, walked: usize, next: Next) -> u64 {
        position.partners(next.falls, walked, route) as u64
    }
}

// A counter for walks with a least size.
#[derive(Clone, Copy)]
pub(crate) struct BySize {
    // The rising sets that were passed, and the falling sets that were passed.
    pub(crate) passed: [SizeTally; 2],
    // For each size, the number of all rising sets with fewer chairs.
    pub(crate) fewer: [usize; STARTS],
}

impl BySize {
    ghost use Rattle.swing_walk.specs.Walks.{at_start};
    ghost use Rattle.swing_walk.specs.declared.positions.Route.{Route};

    // The counter of a chain that has passed no set.
    pub(crate) fn start(rising: &SumList) -> BySize
        ensures counted { (route : Route) → route.rising ≡ rising.now → CountsBySize result route (at_start route) }
    {
        BySize {
            passed: [SizeTally::new(); 2],
            fewer: starts_of(rising),
        }
    }
}

impl Partners for BySize {
    ghost counts = { λ s. CountsBySize s };

    #[inline(always)]
    fn pass(&mut self, route: &Route, _position: Position, _walked: usize, next: Next) -> u64 {
        let mask = next.mask();
        let lane = lacking(route.least_size, mask);
        let left = route.rising.len()
            - self.fewer[lane]
            - usize::from(self.passed[RISING].at_least[lane]);
        let gone = usize::from(self.passed[FALLING].at_least[lane]);
        count_on(&mut self.passed, next.falls, mask);
        either(next.falls, left, gone) as u64
    }
}
