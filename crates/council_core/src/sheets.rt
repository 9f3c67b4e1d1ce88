//! The sheet: the 34 numbers that readers see.
ghost use Rattle.std.specs.Prelude.{◌≡◌, ◌≤◌, ◌<◌, ◌+◌, ◌↔◌, length, slice_index, ℕ};
ghost use Rattle.std.specs.Prelude.{IsTrue, IsOk, IfOk, IsOkUnless};
ghost use Rattle.council_core.specs.declared.refusals.Refusal.TheVariants.{BadSheet};
ghost use Rattle.arrayvec.specs.ArrayVec.{array_vec_len};
ghost use Rattle.council_core.specs.Sheets.{cast_of, total_of, front_of, open_chairs, weight_word, IsSheet};

use crate::limits::{CHAIRS, FRONT, MAX_COMMANDS, MAX_TOTAL, SHEET_WORDS, TOTAL};
use crate::refusals::Refusal;
use crate::values::{ChairId, chair_at, index_of};
use arrayvec::ArrayVec;
use std::marker::Model;

/// The 34 numbers that readers see: for each chair a word, which is 0 if the chair is closed and
/// its weight plus 1 if it is open; then the total voting power; then the front, the number of
/// accepted commands. Weights and the total are in votes.
///
/// `from_words`, `chairs`, `open_chairs` and `cast` pass over the words of all chairs; `words`,
/// `from_words_unchecked` and a copy of a sheet copy its 272 bytes; every other call reads one word.
#[derive(Clone, Copy, Debug, PartialEq, Eq, Hash)]
pub struct Sheet {
    words: [u64; SHEET_WORDS],
}

impl Model for Sheet {
    ghost use Rattle.std.specs.Prelude.{ℕ, List};
    ghost use Rattle.council_core.specs.Sheets.{IsSheet};

    ghost Value = { List ℕ };

    ghost view = { λ s. s.words };

    ghost invariant = { λ s. IsSheet s.words };

    ghost inverse = { λ l. record { words = l } };
}

impl Sheet {
    /// The sheet with these words.
    ///
    /// # Errors
    ///
    /// `Refusal::BadSheet` unless each of the first `CHAIRS` words is at most `MAX_TOTAL` + 1, the
    /// weights add up to at most the total, the total is at most `MAX_TOTAL`, and the front is at
    /// most `MAX_COMMANDS`.
    ///
    /// ```rust
    /// let mut words = [0; SHEET_WORDS];
    /// words[0] = 11; // chair 1 is open with 10 votes
    /// words[TOTAL] = 10;
    /// words[FRONT] = 2;
    /// let sheet = Sheet::from_words(&words)?;
    /// assert_eq!(rt; sheet.weight(ChairId::new(1)?), Some(10));
    /// ```
    pub fn from_words(words: &[u64; SHEET_WORDS]) -> Result<Sheet, Refusal>
        ensures in_range { IsOk result ↔ IsSheet words.now }
        ensures kept { IfOk result (λ s. s ≡ words.now) }
        ensures refused { IsOkUnless result BadSheet }
    {
        if is_in_range(words) {
            Ok(Sheet::from_words_unchecked(words))
        } else {
            Err(Refusal::BadSheet)
        }
    }

    /// The sheet with these words, untested: the caller must have proved that they are in range.
    /// Words from outside go through `from_words`, which tests them.
    pub fn from_words_unchecked(words: &[u64; SHEET_WORDS]) -> Sheet
        requires { IsSheet words.now }
        ensures { result ≡ words.now }
    {
        Sheet { words: *words }
    }

    /// The words, in the order of `Sheet`.
    pub fn words(&self) -> [u64; SHEET_WORDS]
        ensures same { result ≡ self.now }
        ensures long { length result ≡ SHEET_WORDS }
        ensures lawful { IsSheet result }
    {
        let Sheet { words } = *self;
        words
    }

    /// The total voting power in votes, from 0 to `MAX_TOTAL`: the votes of all members that are
    /// not suspended, including members in no chair (Schedule L).
    pub fn total(&self) -> u64
        ensures same { result ≡ total_of self.now }
        ensures high { result ≤ MAX_TOTAL }
        ensures cast { cast_of self.now ≤ result }
    {
        self.words[TOTAL]
    }

    /// The number of open chairs, from 0 to `CHAIRS`.
    pub fn chairs(&self) -> u8
        ensures same { result ≡ length (open_chairs self.now) }
        ensures high { result ≤ CHAIRS }
    {
        open_count(&self.words)
    }

    /// The open chairs in ascending order of their numbers, each with its weight in votes.
    pub fn open_chairs(&self) -> ArrayVec<(ChairId, u64), CHAIRS>
        ensures same { result.items ≡ open_chairs self.now }
        ensures bound { array_vec_len result ≤ CHAIRS }
    {
        let mut chairs = ArrayVec::new();
        for index in 0..CHAIRS {
            let chair = chair_at(index);
            if let Some(weight) = self.weight(chair) {
                chairs.push((chair, weight));
            }
        }
        chairs
    }

    /// The weight of an open chair in votes: the votes of its members that are not suspended.
    /// `None` if the chair is closed.
    pub fn weight(&self, chair: ChairId) -> Option<u64>
        ensures weight { result ≡ weight_word self.now chair }
    {
        let word = self.words[index_of(chair)];
        if word == 0 { None } else { Some(word - 1) }
    }

    /// The number of accepted commands, from 0 to `MAX_COMMANDS`.
    pub fn front(&self) -> u32
        ensures same { result ≡ front_of self.now }
    {
        self.words[FRONT] as u32
    }

    /// The votes that all open chairs cast together, from 0 to the total.
    pub fn cast(&self) -> u64
        ensures same { result ≡ cast_of self.now }
        ensures high { result ≤ MAX_TOTAL }
    {
        cast_in(&self.words)
    }
}

// The number of open chairs among these words.
#[tactic(auto, using(std::proofs::lemmas::Grind::common_steps, crate::proofs::OpenChairs::length_more))]
fn open_count(words: &[u64; SHEET_WORDS]) -> u8
    ensures same { result ≡ length (open_chairs words.now) }
    ensures high { result ≤ CHAIRS }
{
    let mut chairs = 0;
    for i in 0..CHAIRS {
        chairs += u8::from(words[i] != 0);
    }
    chairs
}

// The sum of the weights in these words.
#[tactic(auto, using(std::proofs::lemmas::Grind::common_steps, crate::proofs::SheetLemmas::cast_more))]
fn cast_in(words: &[u64; SHEET_WORDS]) -> u64
    requires small { (k : ℕ) → k < CHAIRS → slice_index words.now k ≤ MAX_TOTAL + 1 }
    ensures same { result ≡ cast_of words.now }
{
    let mut cast = 0;
    for i in 0..CHAIRS {
        cast += words[i].saturating_sub(1);
    }
    cast
}

// Whether each chair's word is at most the largest word of a sheet.
fn are_small(words: &[u64; SHEET_WORDS]) -> bool
    ensures { IsTrue result ↔ ((k : ℕ) → k < CHAIRS → slice_index words.now k ≤ MAX_TOTAL + 1) }
{
    for i in 0..CHAIRS {
        if words[i] > MAX_TOTAL + 1 {
            return false;
        }
    }
    true
}

// Whether these words are a sheet.
fn is_in_range(words: &[u64; SHEET_WORDS]) -> bool
    ensures { IsTrue result ↔ IsSheet words.now }
{
    are_small(words)
        && cast_in(words) <= words[TOTAL]
        && words[TOTAL] <= MAX_TOTAL
        && words[FRONT] <= u64::from(MAX_COMMANDS)
}
