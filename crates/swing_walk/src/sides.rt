//! The data of a chain for its rising list and its falling list. Each step adds to one of the two,
//! and selects it by an index instead of a branch.
ghost use Rattle.std.specs.Prelude.{◌≡◌, ℕ, ◌+◌, ◌*◌, ◌^◌, ◌<◌, ◌%◌, cond};
ghost use Rattle.std.specs.Int.{bit_at};
ghost use Rattle.swing_walk.specs.Tallies.{slot_amount, tally_total};
ghost use Rattle.swing_walk.specs.Sides.{tally_at, sizes_at};
ghost use Rattle.swing_walk.specs.Sizes.{tally_of_size, one_at};
ghost use Rattle.swing_walk.specs.declared.sizes.TheConstants.{LANES};

use crate::sizes::SizeTally;
use crate::tally::MaskTally;

// The indices of the data for the rising list and for the falling one.
pub(crate) const RISING: usize = 0;

pub(crate) const FALLING: usize = 1;

// Adds an amount to the tally of the falling sets if `falls`, otherwise to that of the rising ones.
pub(crate) fn add_to(sides: &mut [MaskTally; 2], falls: bool, mask: u16, amount: u64)
    requires rising_room { tally_total (tally_at 0 sides.old) + amount < 2 ^ 64 }
    requires falling_room { tally_total (tally_at 1 sides.old) + amount < 2 ^ 64 }

    // The tally of the rising sets.
    ensures rising_total { tally_total (tally_at 0 sides.new)
        ≡ tally_total (tally_at 0 sides.old) + cond falls 0 amount }
    ensures rising_marked { (slot : ℕ)
        → slot_amount slot (tally_at 0 sides.new)
        ≡ slot_amount slot (tally_at 0 sides.old) + bit_at mask slot * cond falls 0 amount }

    // The tally of the falling sets.
    ensures falling_total { tally_total (tally_at 1 sides.new)
        ≡ tally_total (tally_at 1 sides.old) + cond falls amount 0 }
    ensures falling_marked { (slot : ℕ)
        → slot_amount slot (tally_at 1 sides.new)
        ≡ slot_amount slot (tally_at 1 sides.old) + bit_at mask slot * cond falls amount 0 }
{
    sides[usize::from(falls)].add(mask, amount);
}

// Adds the amounts of the falling sets of one chain to those of the rising sets of the other, which
// are sets of the same list.
pub(crate) fn join(sides: &mut [MaskTally; 2], other: &[MaskTally; 2])
    requires room { tally_total (tally_at 0 sides.old) + tally_total (tally_at 1 other.now) < 2 ^ 64 }
    ensures total { tally_total (tally_at 0 sides.new)
        ≡ tally_total (tally_at 0 sides.old) + tally_total (tally_at 1 other.now) }
    ensures marked { (slot : ℕ)
        → slot_amount slot (tally_at 0 sides.new)
        ≡ slot_amount slot (tally_at 0 sides.old) + slot_amount slot (tally_at 1 other.now) }
    ensures kept { tally_at 1 sides.new ≡ tally_at 1 sides.old }
{
    sides[RISING].join(&other[FALLING]);
}

// The tally of the rising sets.
pub(crate) fn rising(sides: &[MaskTally; 2]) -> &MaskTally
    ensures same { result.now ≡ tally_at 0 sides.now }
{
    &sides[RISING]
}

// Counts a set by its size, among the falling ones if `falls`, otherwise among the rising ones.
// Inlined, because a call at each step takes longer.
#[inline(always)]
pub(crate) fn count_on(sides: &mut [SizeTally; 2], falls: bool, mask: u16)
    ensures rising { (size : ℕ) → size < LANES
        → tally_of_size size (sizes_at 0 sides.new)
        ≡ cond falls (tally_of_size size (sizes_at 0 sides.old))
        ((tally_of_size size (sizes_at 0 sides.old) + one_at size mask) % 2 ^ 16) }
    ensures falling { (size : ℕ) → size < LANES
        → tally_of_size size (sizes_at 1 sides.new)
        ≡ cond falls ((tally_of_size size (sizes_at 1 sides.old) + one_at size mask) % 2 ^ 16)
        (tally_of_size size (sizes_at 1 sides.old)) }
{
    sides[usize::from(falls)].add(mask);
}
