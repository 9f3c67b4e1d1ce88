//! The least weight and the least size that win, and the test of whether a coalition wins.
ghost use Rattle.std.specs.Prelude.{◌≡◌, ◌≤◌, ◌↔◌, ℕ, IsTrue};
ghost use Rattle.council_core.specs.declared.limits.TheConstants.{MAX_TOTAL};
ghost use Rattle.majority_rule.specs.Winning.{MonotoneLaw, QuotaLaw, quota_of, least_size_of, weight_wins, size_wins};
ghost use Rattle.majority_rule.specs.Winning.{wins};

use crate::majorities::Majority;
use council_core::Sheet;

/// The least weight, in votes, with which a coalition can win on this sheet. The coalition of all
/// open chairs may weigh less: if members sit in no chair, even that coalition can lose. Adds up the
/// weights of the sheet at most once.
///
/// ```rust
/// // Chair 1 is open with 10 votes of a total of 10.
/// let mut words = [0; SHEET_WORDS];
/// words[0] = 11;
/// words[TOTAL] = 10;
/// let sheet = Sheet::from_words(&words)?;
/// assert_eq!(rt; quota(Majority::Half, &sheet), 6);
/// assert_eq!(rt; quota(Majority::EightyFive, &sheet), 9);
/// ```
pub fn quota(majority: Majority, sheet: &Sheet) -> u64
    ensures same { result ≡ quota_of majority sheet.now }
    ensures least { (w : ℕ) → (result ≤ w) ↔ IsTrue (weight_wins majority sheet.now w) }
{
    match majority {
        Majority::Half => sheet.cast() / 2 + 1,
        Majority::Seventy => ((7 * sheet.total() + 9) / 10).max(1),
        Majority::EightyFive => ((17 * sheet.total() + 19) / 20).max(1),
        Majority::Quorum => sheet.total().div_ceil(2),
    }
}

/// The least number of chairs with which a coalition can win on this sheet; 0 if the majority
/// requires no number of chairs. It may exceed the number of open chairs: it is 1 for a quorum if
/// no chair is open. Counts the open chairs at most once.
pub fn least_size(majority: Majority, sheet: &Sheet) -> u8
    ensures same { result ≡ least_size_of majority sheet.now }
    ensures least { (k : ℕ) → (result ≤ k) ↔ IsTrue (size_wins majority sheet.now k) }
{
    match majority {
        Majority::Half | Majority::Seventy | Majority::EightyFive => 0,
        Majority::Quorum => sheet.chairs() / 2 + 1,
    }
}

/// Whether a coalition of `size` chairs with this weight, in votes and at most `MAX_TOTAL`, wins on
/// this sheet.
pub fn wins(majority: Majority, sheet: &Sheet, weight: u64, size: u8) -> bool
    requires weight { weight ≤ MAX_TOTAL }
    ensures known { result ≡ wins majority sheet.now weight size }
{
    match majority {
        Majority::Half => sheet.cast() < 2 * weight,
        Majority::Seventy => weight >= 1 && 7 * sheet.total() <= 10 * weight,
        Majority::EightyFive => weight >= 1 && 17 * sheet.total() <= 20 * weight,
        Majority::Quorum => sheet.total() <= 2 * weight
            && u16::from(sheet.chairs()) < 2 * u16::from(size),
    }
}

/// A coalition wins exactly if it reaches both the quota and the least size.
pub fn quota_law()
    ensures quota { QuotaLaw }
{}

/// A coalition with at least the weight and the size of a winning one also wins.
pub fn monotone_law()
    ensures monotone { MonotoneLaw }
{}
