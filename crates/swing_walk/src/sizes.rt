//! Numbers of sets that have at least a given size.
ghost use Rattle.std.specs.Prelude.{◌≡◌, ℕ, ◌+◌, ◌-◌, ◌<◌, ◌%◌, ◌^◌, count_ones, length, min};
ghost use Rattle.std.specs.Prelude.{slice_index_or};
ghost use Rattle.swing_walk.specs.Sizes.{tally_of_size, one_at};

use half_sums::{SIZES, SLOTS, part, size};

// The length of a tally: the 17 sizes, rounded up, because eight numbers are added at once.
pub(crate) const LANES: usize = 24;

// A 1 for each of the 17 sizes, followed by zeros. The `LANES` items from index `SLOTS - n` on
// belong to a set of n chairs: a 1 at each size up to n.
const STEPS: [u16; 40] = [
    1, 1, 1, 1, 1, 1, 1, 1, 1, 1, 1, 1, 1, 1, 1, 1, 1, 0, 0, 0, 0, 0, 0, 0, 0, 0, 0, 0, 0, 0, 0, 0,
    0, 0, 0, 0, 0, 0, 0, 0,
];

// Sets counted by size: for each size, the number of sets with at least that size, modulo 2^16.
#[derive(Clone, Copy)]
pub(crate) struct SizeTally {
    pub(crate) at_least: [u16; LANES],
}

impl SizeTally {
    // The tally of no sets.
    pub(crate) fn new() -> SizeTally
        ensures none { (size : ℕ) → tally_of_size size result ≡ 0 }
    {
        SizeTally {
            at_least: [0; LANES],
        }
    }

    // Adds the set with this mask.
    #[inline(always)]
    pub(crate) fn add(&mut self, mask: u16)
        ensures more { (size : ℕ) → size < LANES
            → tally_of_size size self.new ≡ (tally_of_size size self.old + one_at size mask) % 2 ^ 16 }
    {
        let steps = steps_of(mask);
        for size in 0..LANES {
            self.at_least[size] = self.at_least[size].wrapping_add(steps[size]);
        }
    }
}

// The amount that the set with this mask adds at each size.
fn steps_of(mask: u16) -> &'static [u16]
    ensures long { length result.now ≡ LANES }
    ensures each { (size : ℕ) → slice_index_or result.now size 0 ≡ one_at size mask }
{
    let first = SLOTS - size(mask);
    part(&STEPS, first, first + LANES)
}

// The number of chairs that the set with this mask lacks of `least_size`, at most `SIZES`, one more
// than any set has.
pub(crate) fn lacking(least_size: u8, mask: u16) -> usize
    ensures lacking { result ≡ min (least_size - count_ones mask) SIZES }
{
    usize::from(least_size)
        .saturating_sub(size(mask))
        .min(SIZES)
}
