//! The four majorities, each with its number and its word.
ghost use Rattle.std.specs.Prelude.{◌≡◌, ◌≤◌, ◌==◌, Some, find, length};
ghost use Rattle.std.specs.Fmt.{styled_text};
ghost use Rattle.std.specs.Option.{ok_or};
ghost use Rattle.std.specs.Str.{bytes_eq};
ghost use Rattle.council_core.specs.declared.refusals.Refusal.TheVariants.{BadRecord};
ghost use Rattle.majority_rule.specs.Majorities.{majority_numbered, majority_of, number_of_majority, word_of_majority};

use council_core::Refusal;
use std::fmt;
use std::str::FromStr;

/// A majority: decides which coalitions win by their weight in votes and their size in chairs.
///
/// ```rust
/// for majority in Majority::ALL {
///     println!(rt; "{majority}")?; // half, 70, 85, quorum
/// }
/// let majority: Majority = "quorum".parse()?;
/// assert_eq!(rt; majority, Majority::Quorum);
/// ```
#[derive(Clone, Copy, Debug, PartialEq, Eq, Hash)]
pub enum Majority {
    /// More than half of the votes cast, if all open chairs vote (Articles of Agreement, Article
    /// XII, Section 5(c)).
    Half,
    /// At least 70 per cent of the total voting power, and at least one vote (Article XXVI, Section
    /// 2(b)).
    Seventy,
    /// At least 85 per cent of the total voting power, and at least one vote (Article III, Section
    /// 2(c)).
    EightyFive,
    /// The quorum: more than half of the open chairs, with at least half of the total voting power
    /// (Article XII, Section 3(h)).
    Quorum,
}

impl Majority {
    /// Every majority once, by number.
    pub const ALL: [Majority; 4] = [
        Majority::Half,
        Majority::Seventy,
        Majority::EightyFive,
        Majority::Quorum,
    ];

    /// The majority with this word, or `None` if no majority has it.
    pub fn from_word(word: &[u8]) -> Option<Majority>
        ensures known { result ≡ majority_of word.now }
    {
        first_of_word(&Self::ALL, word)
    }

    /// The majority with this number, or `None` if no majority has it.
    pub fn from_number(number: u32) -> Option<Majority>
        ensures known { result ≡ majority_numbered number }
    {
        first_of_number(&Self::ALL, number)
    }

    /// The majority's number in the library for C.
    pub fn number(self) -> u32
        ensures number { result ≡ number_of_majority self }
        ensures read_back { majority_numbered result ≡ Some self }
    {
        self as u32
    }

    /// The majority's word in ASCII, as records and lines have it, at most 6 bytes long.
    pub fn word(self) -> &'static str
        ensures word { result.now ≡ word_of_majority self }
        ensures read_back { majority_of result.now ≡ Some self }
        ensures short { length result.now ≤ 6 }
    {
        match self {
            Majority::Half => "half",
            Majority::Seventy => "70",
            Majority::EightyFive => "85",
            Majority::Quorum => "quorum",
        }
    }
}

// The first of these majorities that has this word, or `None`.
fn first_of_word(majorities: &[Majority], word: &[u8]) -> Option<Majority>
    ensures { result ≡ find (λ m. bytes_eq word.now (word_of_majority m)) majorities.now }
{
    majorities
        .iter()
        .copied()
        .find(|majority| word == majority.word().as_bytes())
}

// The first of these majorities that has this number, or `None`.
fn first_of_number(majorities: &[Majority], number: u32) -> Option<Majority>
    ensures { result ≡ find (λ m. number_of_majority m == number) majorities.now }
{
    majorities
        .iter()
        .copied()
        .find(|majority| majority.number() == number)
}

impl FromStr for Majority {
    type Err = Refusal;

    ghost from_str_gives = { λ text r. r ≡ ok_or (majority_of text) BadRecord };

    /// The majority with this word, or `Refusal::BadRecord` if no majority has it.
    fn from_str(text: &str) -> Result<Majority, Refusal> {
        Majority::from_word(text.as_bytes()).ok_or(Refusal::BadRecord)
    }
}

impl fmt::Display for Majority {
    ghost output = { λ majority. Some (word_of_majority majority) };

    ghost styled_output = { λ majority spec. Some (styled_text spec (word_of_majority majority)) };

    /// Writes the word.
    fn fmt<W: fmt::Write>(&self, f: &mut fmt::Formatter<W>) -> fmt::Result {
        f.pad(self.word())
    }
}
