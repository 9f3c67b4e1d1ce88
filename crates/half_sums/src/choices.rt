//! Small functions that the walk over these lists also uses.
ghost use Rattle.std.specs.Prelude.{◌≡◌, ◌-◌, ◌≤◌, length, take, drop, cond, count_ones};

use crate::SLOTS;

/// The number of chairs in the set with this mask, from 0 to `SLOTS`.
pub fn size(mask: u16) -> usize
    ensures size { result ≡ count_ones mask }
    ensures bound { result ≤ SLOTS }
{
    mask.count_ones() as usize
}

/// The items from index `from` up to, but not including, index `to`.
pub fn part<T>(items: &[T], from: usize, to: usize) -> &[T]
    requires ordered { from ≤ to }
    requires within { to ≤ length items.now }
    ensures part { result.now ≡ take (to - from) (drop from items.now) }
{
    &items[from..to]
}

/// The first value or the second. Both operands are evaluated, so this compiles to a conditional
/// move.
pub fn either<T: Copy>(first: bool, a: T, b: T) -> T
    ensures chosen { result ≡ cond first a b }
{
    if first { a } else { b }
}
