//! The result of an evaluation.
ghost use Rattle.std.specs.Prelude.{Some};

use arrayvec::ArrayVec;
use council_core::{CHAIRS, ChairId};
use majority_rule::Majority;
use std::fmt;

/// An exact fraction of two whole numbers, not reduced to lowest terms.
///
/// ```rust
/// println!(rt; "{}", Fraction { num: 2, den: 4 })?; // 2/4
/// ```
#[derive(Clone, Copy, Debug, PartialEq, Eq, Hash, Default)]
pub struct Fraction {
    /// The numerator.
    pub num: u64,
    /// The denominator.
    pub den: u64,
}

impl fmt::Display for Fraction {
    ghost use Rattle.power_index.specs.Indices.{fraction};

    ghost output = { λ value. Some (fraction value) };

    /// Writes `NUM/DEN`.
    fn fmt<W: fmt::Write>(&self, f: &mut fmt::Formatter<W>) -> fmt::Result {
        let (num, den) = (self.num, self.den);
        write!(f, "{num}/{den}")
    }
}

/// The power of one open chair.
///
/// A swing of a chair is a set of other open chairs that loses, and that wins once the chair is
/// added (Banzhaf 1965).
#[derive(Clone, Copy, Debug, PartialEq, Eq, Hash, Default)]
pub struct ChairPower {
    /// The chair.
    pub chair: ChairId,
    /// The votes that the chair casts.
    pub weight: u64,
    /// The number of swings of the chair.
    pub swings: u64,
    /// The Banzhaf measure: the swings, divided by the number of sets of the other open chairs,
    /// 2^(n - 1) for n open chairs.
    pub banzhaf: Fraction,
    /// The normalised Banzhaf index: the swings, divided by the sum of the swings of all open
    /// chairs. `None` if no chair has a swing.
    pub share: Option<Fraction>,
    /// The power to prevent action (Coleman 1971): the swings, divided by the number of winning
    /// coalitions. `None` if no coalition wins.
    pub prevent: Option<Fraction>,
    /// The power to initiate action (Coleman 1971): the swings, divided by the number of losing
    /// coalitions.
    pub initiate: Fraction,
}

/// The indices of a sheet under a majority.
///
/// Names and fractions are those of Felsenthal and Machover (1998). Votes are at most `MAX_TOTAL`,
/// counts at most 2^32, except the denominator of a share, which is at most 2^37.
#[derive(Debug, PartialEq, Eq, Drop)]
pub struct Indices {
    /// The majority by which coalitions win.
    pub majority: Majority,
    /// The front of the sheet: the number of accepted commands.
    pub front: u32,
    /// The number of open chairs.
    pub chairs: u8,
    /// The least weight, in votes, with which a coalition can win.
    pub quota: u64,
    /// The least number of chairs with which a coalition can win; 0 if the majority requires none.
    pub least_size: u8,
    /// The votes of all open chairs together.
    pub cast: u64,
    /// The total voting power, in votes.
    pub total: u64,
    /// Omega: the number of winning coalitions.
    pub winning: u64,
    /// The number of all coalitions, 2^n for n open chairs.
    pub coalitions: u64,
    /// The power of the board to act (Coleman 1971): the winning coalitions, divided by all
    /// coalitions.
    pub act: Fraction,
    /// A row for each open chair, in ascending order of the chairs' numbers.
    pub rows: ArrayVec<ChairPower, CHAIRS>,
}
