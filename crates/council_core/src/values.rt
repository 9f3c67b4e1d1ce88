//! Validated values that commands carry: chairs, votes and member codes.
ghost use Rattle.std.specs.Prelude.{◌≡◌, ◌≤◌, ◌<◌, ◌+◌, ◌↔◌, ◌^◌, ℕ, List, IsOk, IfOk};
ghost use Rattle.std.specs.Prelude.{IsOkUnless, Some, decimal};
ghost use Rattle.std.specs.Fmt.{styled_decimal, styled_text};
ghost use Rattle.std.specs.Result.{OkIff};
ghost use Rattle.council_core.specs.declared.refusals.Refusal.TheVariants.{BadChair, BadMember, VotesTooLarge};
ghost use Rattle.council_core.specs.Codes.{IsCode};

use crate::limits::{CHAIRS, MAX_VOTES};
use crate::refusals::Refusal;
use std::fmt;
use std::marker::Model;
use std::str::{self, FromStr};

/// A chair: the Executive Director, by number from 1 to 32, who casts the votes of its members
/// as one block (Articles of Agreement, Article XII, Section 3(i)). Chairs are ordered by number.
///
/// ```rust
/// let chair = ChairId::try_from(12)?;
/// assert_eq!(rt; chair.number(), 12);
/// assert!(rt; ChairId::new(0).is_err() && ChairId::default() < chair);
/// println!(rt; "chair {chair}")?; // chair 12
/// ```
#[derive(Clone, Copy, Debug, PartialEq, Eq, PartialOrd, Ord, Hash)]
pub struct ChairId {
    number: u8,
}

impl Model for ChairId {
    ghost use Rattle.std.specs.Prelude.{ℕ, ◌≤◌};

    ghost Value = { ℕ };

    ghost view = { λ c. c.number };

    ghost invariant = { λ c. (1 ≤ c.number) × (c.number ≤ 32) };

    ghost inverse = { λ n. record { number = n } };
}

impl Default for ChairId {
    /// Chair 1.
    fn default() -> ChairId
        ensures { result ≡ 1 }
    {
        ChairId { number: 1 }
    }
}

impl ChairId {
    /// The chair with this number.
    ///
    /// # Errors
    ///
    /// `Refusal::BadChair` if `number` is 0 or above `CHAIRS`.
    pub fn new(number: u8) -> Result<ChairId, Refusal>
        ensures in_range { IsOk result ↔ ((1 ≤ number) × (number ≤ CHAIRS)) }
        ensures kept { IfOk result (λ c. c ≡ number) }
        ensures refused { IsOkUnless result BadChair }
    {
        if 1 <= number && usize::from(number) <= CHAIRS {
            Ok(ChairId { number })
        } else {
            Err(Refusal::BadChair)
        }
    }

    /// The chair's number, from 1 to `CHAIRS`.
    pub fn number(&self) -> u8
        ensures same { result ≡ self.now }
        ensures low { 1 ≤ result }
        ensures high { result ≤ CHAIRS }
    {
        self.number
    }
}

impl TryFrom<u8> for ChairId {
    type Error = Refusal;

    ghost use Rattle.council_core.specs.declared.limits.TheConstants.{CHAIRS};

    ghost try_from_gives = { λ number r. OkIff r ((1 ≤ number) × (number ≤ CHAIRS)) number × IsOkUnless r BadChair };

    /// Like `ChairId::new`.
    fn try_from(number: u8) -> Result<ChairId, Refusal> {
        ChairId::new(number)
    }
}

impl fmt::Display for ChairId {
    ghost output = { λ chair. Some (decimal chair) };

    ghost styled_output = { λ chair spec. Some (styled_decimal spec chair) };

    /// Writes the number.
    fn fmt<W: fmt::Write>(&self, f: &mut fmt::Formatter<W>) -> fmt::Result {
        fmt::Display::fmt(&self.number, f)
    }
}

// The index of a chair's word in a sheet.
pub(crate) fn index_of(chair: ChairId) -> usize
    ensures index { result + 1 ≡ chair }
    ensures within { result < CHAIRS }
{
    chair.number() as usize - 1
}

// The chair whose word is at this index of a sheet.
pub(crate) fn chair_at(index: usize) -> ChairId
    requires within { index < CHAIRS }
    ensures number { result ≡ index + 1 }
{
    ChairId {
        number: index as u8 + 1,
    }
}

/// The votes of one member, basic and quota-based votes together, from 0 to 2^40 votes (Articles
/// of Agreement, Article XII, Section 5(a)).
///
/// ```rust
/// let votes = Votes::try_from(831_401)?;
/// assert_eq!(rt; votes.number(), 831_401);
/// assert!(rt; Votes::new(0)? < votes && Votes::new(u64::MAX).is_err());
/// ```
#[derive(Clone, Copy, Debug, PartialEq, Eq, PartialOrd, Ord, Hash)]
pub struct Votes {
    count: u64,
}

impl Model for Votes {
    ghost use Rattle.std.specs.Prelude.{ℕ, ◌≤◌, ◌^◌};

    ghost Value = { ℕ };

    ghost view = { λ v. v.count };

    ghost invariant = { λ v. v.count ≤ 2 ^ 40 };

    ghost inverse = { λ n. record { count = n } };
}

impl Votes {
    /// This number of votes.
    ///
    /// # Errors
    ///
    /// `Refusal::VotesTooLarge` if `number` is above `MAX_VOTES`.
    pub fn new(number: u64) -> Result<Votes, Refusal>
        ensures in_range { IsOk result ↔ (number ≤ MAX_VOTES) }
        ensures kept { IfOk result (λ v. v ≡ number) }
        ensures refused { IsOkUnless result VotesTooLarge }
    {
        if number <= MAX_VOTES {
            Ok(Votes { count: number })
        } else {
            Err(Refusal::VotesTooLarge)
        }
    }

    /// The number of votes, from 0 to `MAX_VOTES`.
    pub fn number(&self) -> u64
        ensures same { result ≡ self.now }
        ensures high { result ≤ MAX_VOTES }
    {
        self.count
    }
}

impl TryFrom<u64> for Votes {
    type Error = Refusal;

    ghost use Rattle.council_core.specs.declared.limits.TheConstants.{MAX_VOTES};

    ghost try_from_gives = { λ number r. OkIff r (number ≤ MAX_VOTES) number × IsOkUnless r VotesTooLarge };

    /// Like `Votes::new`.
    fn try_from(number: u64) -> Result<Votes, Refusal> {
        Votes::new(number)
    }
}

impl fmt::Display for Votes {
    ghost output = { λ votes. Some (decimal votes) };

    ghost styled_output = { λ votes spec. Some (styled_decimal spec votes) };

    /// Writes the number.
    fn fmt<W: fmt::Write>(&self, f: &mut fmt::Formatter<W>) -> fmt::Result {
        fmt::Display::fmt(&self.count, f)
    }
}

/// The code that names a member: three ASCII capitals. Codes are ordered as in a dictionary.
///
/// ```rust
/// let code: MemberCode = "AUT".parse()?;
/// assert_eq!(rt; code, MemberCode::new(b"AUT")?);
/// assert_eq!(rt; code.as_str(), "AUT");
/// assert!(rt; code < MemberCode::new(b"BEL")? && MemberCode::new(b"Aut").is_err());
/// ```
#[derive(Clone, Copy, Debug, PartialEq, Eq, PartialOrd, Ord, Hash)]
pub struct MemberCode {
    letters: [u8; 3],
}

impl Model for MemberCode {
    ghost use Rattle.std.specs.Prelude.{ℕ, List};
    ghost use Rattle.council_core.specs.Codes.{IsCode};

    ghost Value = { List ℕ };

    ghost view = { λ m. m.letters };

    ghost invariant = { λ m. IsCode m.letters };

    ghost inverse = { λ l. record { letters = l } };
}

impl MemberCode {
    /// The code with these letters.
    ///
    /// # Errors
    ///
    /// `Refusal::BadMember` unless `text` is exactly three ASCII capitals.
    pub fn new(text: &[u8]) -> Result<MemberCode, Refusal>
        ensures in_range { IsOk result ↔ IsCode text.now }
        ensures kept { IfOk result (λ m. m ≡ text.now) }
        ensures refused { IsOkUnless result BadMember }
    {
        match text {
            [a @ b'A'..=b'Z', b @ b'A'..=b'Z', c @ b'A'..=b'Z'] => Ok(MemberCode {
                letters: [*a, *b, *c],
            }),
            _ => Err(Refusal::BadMember),
        }
    }

    /// The three letters.
    pub fn letters(&self) -> [u8; 3]
        ensures same { result ≡ self.now }
        ensures code { IsCode result }
    {
        self.letters
    }

    /// The three letters as text.
    pub fn as_str(&self) -> &str
        ensures same { result.now ≡ self.now }
    {
        match str::from_utf8(&self.letters) {
            Ok(text) => text,
            Err(_) => unreachable!(),
        }
    }
}

impl FromStr for MemberCode {
    type Err = Refusal;

    ghost from_str_gives = { λ text r. OkIff r (IsCode text) text × IsOkUnless r BadMember };

    /// Like `MemberCode::new`.
    fn from_str(text: &str) -> Result<MemberCode, Refusal> {
        MemberCode::new(text.as_bytes())
    }
}

impl fmt::Display for MemberCode {
    ghost output = { λ code. Some code };

    ghost styled_output = { λ code spec. Some (styled_text spec code) };

    /// Writes the three letters.
    fn fmt<W: fmt::Write>(&self, f: &mut fmt::Formatter<W>) -> fmt::Result {
        f.pad(self.as_str())
    }
}
