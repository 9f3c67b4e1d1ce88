//! The walk over two lists from both ends at once.
//!
//! The walk puts all sets of a rising and a falling list in one order. The next falling set comes
//! next if it reaches the quota with the next rising one, and so with each rising set that is left.
//! Otherwise the rising set comes next, which reaches the quota with exactly the falling sets that
//! were passed. From the other end, the order is that of the two lists exchanged.
//!
//! The walk is compiled once for each `Partners`, because testing at each step whether a size is
//! required takes longer.
ghost use Rattle.std.specs.Prelude.{◌≡◌, ℕ, ◌+◌, ◌-◌, ◌^◌, ◌<◌, ◌≤◌, ◌*◌, ◌&&◌, ◌||◌, length, not, nat_le};
ghost use Rattle.std.specs.Prelude.{slice_index, slice_index_or};
ghost use Rattle.std.specs.List.{All};
ghost use Rattle.council_core.specs.declared.limits.TheConstants.{MAX_TOTAL};
ghost use Rattle.half_sums.specs.Entries.{zero_entry};
ghost use Rattle.swing_walk.specs.Pairs.{winning_pairs, winning_with};
ghost use Rattle.swing_walk.specs.Walks.{wins_on, turned_route, IsNext, StandsAt, ChainsStand, HasPassed};
ghost use Rattle.swing_walk.specs.Walks.{at_start, at_step};
ghost use Rattle.swing_walk.specs.Sides.{tally_at};
ghost use Rattle.swing_walk.specs.Tallies.{CreditsEach};

use crate::pairs::{Counts, counts_of};
use crate::partners::Partners;
use crate::positions::{Next, Position, Route};
use crate::sides::{add_to, join, rising};
use crate::tally::MaskTally;
use council_core::CHAIRS;
use half_sums::{Entry, ROOM, SumList};

// The counts of a chain: the tallies of its rising and its falling list, and the counter of
// partners.
#[derive(Clone, Copy)]
struct Chain<P: Partners> {
    tallies: [MaskTally; 2],
    partners: P,
}

// The counts of the two chains of a walk, in one place, because a loop that has two addresses takes
// longer.
#[derive(Clone, Copy)]
struct Chains<P: Partners> {
    front: Chain<P>,
    back: Chain<P>,
}

// The positions of the two chains of a walk, after `walked` steps of each.
#[derive(Clone, Copy)]
struct ChainPositions {
    walked: usize,
    front: Position,
    back: Position,
}

// The entry that is read past the end of a list.
const NO_ENTRY: Entry = Entry { sum: 0, mask: 0 };

// Counts the pairs of a rising and a falling set that reach the quota and the least size. `front`
// and `back` count the partners of the two chains.
pub(crate) fn walk<P: Partners>(route: &Route, front: P, back: P) -> Counts
    // No entry is passed.
    requires front { P.counts front route.now (at_start route.now) }
    requires back { P.counts back (turned_route route.now) (at_start (turned_route route.now)) }

    // The counts.
    ensures winning { result.winning
        ≡ winning_pairs route.now.quota route.now.least_size route.now.rising route.now.falling }
    ensures with_chair { (place : ℕ) → place < CHAIRS → slice_index result.with_chair place
        ≡ winning_with route.now.quota route.now.least_size place route.now.rising route.now.falling }
{
    let mut chains = Chains {
        front: Chain {
            tallies: [MaskTally::new(); 2],
            partners: front,
        },
        back: Chain {
            tallies: [MaskTally::new(); 2],
            partners: back,
        },
    };
    let ends = walk_within(route, &mut chains);
    walk_on(ends, route, &mut chains);
    join(&mut chains.front.tallies, &chains.back.tallies);
    join(&mut chains.back.tallies, &chains.front.tallies);
    counts_of(rising(&chains.front.tallies), rising(&chains.back.tallies))
}

// Walks up the left list and down the right one, and from the other end up the right list and down
// the left one, as many steps as the shorter list has entries, so neither list ends; none if a set
// has `MAX_TOTAL` votes. The two chains do not depend on one another: each has its own tallies, and
// neither branches on the sums. Both routes are copies in the frame of the loop.
#[inline(never)]
fn walk_within<P: Partners>(route: &Route, chains: &mut Chains<P>) -> ChainPositions
    requires front { StandsAt (P.counts chains.old.front.partners) route.now (at_start route.now)
        chains.old.front.tallies }
    requires back { StandsAt (P.counts chains.old.back.partners) (turned_route route.now)
        (at_start (turned_route route.now)) chains.old.back.tallies }
    ensures within { 2 * result.walked ≤ length route.now.rising + length route.now.falling }
    ensures stand { ChainsStand (P.counts chains.new.front.partners) (P.counts chains.new.back.partners) route.now
        result chains.new.front.tallies chains.new.back.tallies }
{
    let (own, other) = (route.copy(), route.turned());
    let steps = steps_within(&own);
    let mut front_up = 0;
    let mut back_up = 0;
    for walked in 0..steps {
        front_up = pass_within(front_up, walked, &own, &mut chains.front);
        back_up = pass_within(back_up, walked, &other, &mut chains.back);
    }
    ChainPositions {
        walked: steps,
        front: Position::at_step(&own, steps, front_up),
        back: Position::at_step(&other, steps, back_up),
    }
}

// The number of steps within both lists, or 0 if a set has `MAX_TOTAL` votes.
fn steps_within(route: &Route) -> usize
    ensures rising { result ≤ length route.now.rising }
    ensures falling { result ≤ length route.now.falling }
    ensures rising_below { 0 < result → All (λ e. e.sum < MAX_TOTAL) route.now.rising }
    ensures falling_below { 0 < result → All (λ e. e.sum < MAX_TOTAL) route.now.falling }
{
    if route.rising.is_below_limit() && route.falling.is_below_limit() {
        route.rising.len().min(route.falling.len())
    } else {
        0
    }
}

// Walks the remaining steps, until all entries are passed.
#[inline(never)]
fn walk_on<P: Partners>(ends: ChainPositions, route: &Route, chains: &mut Chains<P>)
    requires within { 2 * ends.walked ≤ length route.now.rising + length route.now.falling }
    requires stand { ChainsStand (P.counts chains.old.front.partners) (P.counts chains.old.back.partners) route.now
        ends chains.old.front.tallies chains.old.back.tallies }

    // The pairs that both chains together have credited.
    ensures lefts { CreditsEach (wins_on route.now) route.now.rising route.now.falling
        (tally_at 0 chains.new.front.tallies) (tally_at 1 chains.new.back.tallies) }
    ensures rights { CreditsEach (wins_on route.now) route.now.falling route.now.rising
        (tally_at 0 chains.new.back.tallies) (tally_at 1 chains.new.front.tallies) }
{
    let other = route.turned();
    let steps = route.rising.len() + route.falling.len();
    let mut from_front = ends.front;
    let mut from_back = ends.back;
    for walked in ends.walked..steps / 2 {
        from_front = pass(from_front, walked, route, &mut chains.front);
        from_back = pass(from_back, walked, &other, &mut chains.back);
    }
    if steps % 2 == 1 {
        pass(from_front, steps / 2, route, &mut chains.front);
    }
}

// Passes the next entry of two lists of which neither has ended, and no set has `MAX_TOTAL` votes,
// after `walked` steps, `up` of them up the rising list. Returns the number of steps up after it.
// With `walked`, one number is the position of a chain, because a loop that keeps two for each chain
// takes longer.
#[inline(always)]
fn pass_within<P: Partners>(up: usize, walked: usize, route: &Route, chain: &mut Chain<P>) -> usize
    requires rising_below { All (λ e. e.sum < MAX_TOTAL) route.now.rising }
    requires falling_below { All (λ e. e.sum < MAX_TOTAL) route.now.falling }

    // The position of the chain.
    requires up { up ≤ walked }
    requires some_rising { walked < length route.now.rising }
    requires some_falling { walked < length route.now.falling }
    requires stands { StandsAt (P.counts chain.old.partners) route.now (at_step route.now walked up)
        chain.old.tallies }

    // The next position.
    ensures up { result ≤ walked + 1 }
    ensures stands { StandsAt (P.counts chain.new.partners) route.now (at_step route.now (walked + 1) result)
        chain.new.tallies }
{
    let position = Position::at_step(route, walked, up);
    let low = route.rising.at_below_limit(up);
    let high = route.falling.at_below_limit(position.rest - 1);
    let falls = route.quota <= low.sum + high.sum;
    pass_next(Next { low, high, falls }, position, walked, route, chain).up
}

// Passes the next entry of two lists of which at most one has ended, after `walked` steps.
#[inline(always)]
fn pass<P: Partners>(
    position: Position,
    walked: usize,
    route: &Route,
    chain: &mut Chain<P>,
) -> Position
    // The position of the chain.
    requires some { position.up < length route.now.rising + position.rest }
    requires bound { position.up + length route.now.falling < position.rest + ROOM }
    requires passed { HasPassed walked position route.now.falling }
    requires stands { StandsAt (P.counts chain.old.partners) route.now position chain.old.tallies }

    // The next position.
    ensures next { result.up + position.rest ≡ position.up + result.rest + 1 }
    ensures stands { StandsAt (P.counts chain.new.partners) route.now result chain.new.tallies }
{
    let low = next_up(&route.rising, position.up);
    let high = next_down(&route.falling, position.rest);
    let some_rising = position.up < route.rising.len();
    let falls = falls_next(&low, &high, some_rising, position.rest > 0, route.quota);
    pass_next(Next { low, high, falls }, position, walked, route, chain)
}

// Passes the next entry after `walked` steps.
#[inline(always)]
fn pass_next<P: Partners>(
    next: Next,
    position: Position,
    walked: usize,
    route: &Route,
    chain: &mut Chain<P>,
) -> Position
    requires next { IsNext next route.now position }

    // The position of the chain.
    requires bound { position.up + length route.now.falling < position.rest + ROOM }
    requires passed { HasPassed walked position route.now.falling }
    requires stands { StandsAt (P.counts chain.old.partners) route.now position chain.old.tallies }

    // The next position.
    ensures next { result.up + position.rest ≡ position.up + result.rest + 1 }
    ensures stands { StandsAt (P.counts chain.new.partners) route.now result chain.new.tallies }
{
    let partners = chain.partners.pass(route, position, walked, next);
    add_to(&mut chain.tallies, next.falls, next.mask(), partners);
    position.after(next.falls)
}

// Whether the falling entry comes before the rising one: it exists and reaches the quota with the
// rising one, or no rising one is left.
fn falls_next(low: &Entry, high: &Entry, some_rising: bool, some_falling: bool, quota: u64) -> bool
    requires small { low.now.sum + high.now.sum < 2 ^ 64 }
    ensures next { result ≡ (not some_rising || (some_falling && nat_le quota (low.now.sum + high.now.sum))) }
{
    !some_rising || (some_falling && quota <= low.sum + high.sum)
}

// The next entry in ascending order after `passed` entries, or `NO_ENTRY` if all are passed.
fn next_up(entries: &SumList, passed: usize) -> Entry
    ensures entry { passed < length entries.now → result ≡ slice_index_or entries.now passed zero_entry }
    ensures small { result.sum ≤ MAX_TOTAL }
{
    if passed < entries.len() {
        entries.at(passed)
    } else {
        NO_ENTRY
    }
}

// The greatest of the first `rest` entries, which is the next in descending order, or `NO_ENTRY` if
// none is left.
fn next_down(entries: &SumList, rest: usize) -> Entry
    requires within { rest ≤ length entries.now }
    ensures entry { 0 < rest → result ≡ slice_index_or entries.now (rest - 1) zero_entry }
    ensures small { result.sum ≤ MAX_TOTAL }
{
    if rest > 0 {
        entries.at(rest - 1)
    } else {
        NO_ENTRY
    }
}
