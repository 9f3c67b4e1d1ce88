//! What a chain walks, its position, and the entry that it passes next.
ghost use Rattle.std.specs.Prelude.{◌≡◌, ◌+◌, ◌-◌, ◌<◌, ◌≤◌, length, cond};
ghost use Rattle.half_sums.specs.Entries.{IsHalf};

use half_sums::{Entry, ROOM, SumList, either};

// The two lists that a chain walks, and the votes and the chairs that a pair of their sets must
// have.
#[derive(Drop)]
pub(crate) struct Route<'a> {
    pub(crate) quota: u64,
    pub(crate) least_size: u8,
    pub(crate) rising: SumList<'a>,
    pub(crate) falling: SumList<'a>,
    ghost rising_half: { IsHalf rising },
    ghost falling_half: { IsHalf falling },
}

impl<'a> Route<'a> {
    ghost use Rattle.swing_walk.specs.Walks.{turned_route};

    // A copy of the references, not of the sets, as `SumList::copy` makes it.
    #[inline(always)]
    pub(crate) fn copy(&self) -> Route<'a>
        ensures same { result ≡ self.now }
    {
        Route {
            rising: self.rising.copy(),
            falling: self.falling.copy(),
            quota: self.quota,
            least_size: self.least_size,
        }
    }

    // The route of the chain from the other end: the lists are exchanged.
    #[inline(always)]
    pub(crate) fn turned(&self) -> Route<'a>
        ensures turned { result ≡ turned_route self.now }
    {
        Route {
            rising: self.falling.copy(),
            falling: self.rising.copy(),
            quota: self.quota,
            least_size: self.least_size,
        }
    }
}

// The position of a chain. It has passed the first `up` entries of the rising list. The first
// `rest` entries of the falling list are left, and the last of these is the next that it passes.
#[derive(Clone, Copy)]
pub(crate) struct Position {
    pub(crate) up: usize,
    pub(crate) rest: usize,
}

impl Position {
    ghost use Rattle.swing_walk.specs.Walks.{at_start, at_step, position_after, HasPassed};

    // The position of a chain that has passed no entry.
    pub(crate) fn start(route: &Route) -> Position
        ensures start { result ≡ at_start route.now }
    {
        Position {
            up: 0,
            rest: route.falling.len(),
        }
    }

    // The position after `walked` steps, `up` of them up the rising list.
    pub(crate) fn at_step(route: &Route, walked: usize, up: usize) -> Position
        requires up { up ≤ walked }
        requires walked { walked ≤ length route.now.falling }
        ensures at { result ≡ at_step route.now walked up }
    {
        Position {
            up,
            rest: route.falling.len() - walked + up,
        }
    }

    // The position after the falling entry is passed, or otherwise the rising one.
    pub(crate) fn after(self, falls: bool) -> Position
        requires some { cond falls 1 0 ≤ self.rest }
        requires bound { self.up ≤ ROOM }
        ensures after { result ≡ position_after falls self }
    {
        Position {
            up: self.up + usize::from(!falls),
            rest: self.rest - usize::from(falls),
        }
    }

    // The number of entries of the other list that reach the quota with the entry that is passed
    // next: if it is falling, the rising entries that are left, otherwise the falling entries that
    // were passed, which are those of the `walked` steps that did not go up.
    pub(crate) fn partners(self, falls: bool, walked: usize, route: &Route) -> usize
        requires up { self.up ≤ length route.now.rising }
        requires rest { self.rest ≤ length route.now.falling }
        requires passed { HasPassed walked self route.now.falling }
        ensures chosen { result
            ≡ cond falls (length route.now.rising - self.up) (length route.now.falling - self.rest) }
    {
        either(falls, route.rising.len(), walked) - self.up
    }
}

// The next rising and the next falling entry of a chain. `falls` is true if the falling one is
// passed.
#[derive(Clone, Copy)]
pub(crate) struct Next {
    pub(crate) low: Entry,
    pub(crate) high: Entry,
    pub(crate) falls: bool,
}

impl Next {
    // The mask of the entry that is passed.
    pub(crate) fn mask(self) -> u16
        ensures mask { result ≡ cond self.falls self.high.mask self.low.mask }
    {
        either(self.falls, self.high.mask, self.low.mask)
    }
}
