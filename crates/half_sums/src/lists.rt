//! Lists of sets over borrowed slices of words.
//!
//! A word has a set's votes from bit 16 on, and its mask below. The word of a set with all
//! `MAX_TOTAL` votes, which can only be the last ones of a list, lacks their one bit, which would be
//! the 65th.
ghost use Rattle.std.specs.Prelude.{◌≡◌, ◌==◌, ◌<◌, List, length, IsTrue};
ghost use Rattle.std.specs.Prelude.{slice_index_or};
ghost use Rattle.std.specs.List.{All};
ghost use Rattle.council_core.specs.declared.limits.TheConstants.{MAX_TOTAL};
ghost use Rattle.half_sums.specs.declared.entry.Entry.{Entry};
ghost use Rattle.half_sums.specs.Entries.{entries_from, set_of, zero_entry, IsHalf};

use crate::Entry;
use council_core::MAX_TOTAL;
use std::marker::Model;

/// The length of the slices that hold the list of a half: 2^16, the number of sets of sixteen
/// chairs.
pub const ROOM: usize = 65_536;

/// The read-only list of a half, over a borrowed slice with one word for each set: at most `ROOM`
/// sets, ascending by sum, no sum above `MAX_TOTAL`.
#[derive(Debug, Drop)]
pub struct SumList<'a> {
    words: &'a [u64],
    // The index of the first set with `MAX_TOTAL` votes, or the number of sets.
    full: usize,
}

impl<'a> Model for SumList<'a> {
    ghost Value = { List Entry };

    ghost view = { λ l. entries_from l.full l.words.now };

    ghost invariant = { λ l. IsHalf (entries_from l.full l.words.now) };
}

impl<'a> SumList<'a> {
    // The list of the sets in these words, of which those from index `full` on have `MAX_TOTAL`
    // votes.
    pub(crate) fn over(words: &'a [u64], full: usize) -> SumList<'a>
        requires half { IsHalf (entries_from full words.now) }
        ensures entries { result ≡ entries_from full words.now }
    {
        SumList { words, full }
    }

    /// A copy of the reference, not of the sets. A loop over a copy in its own frame does not load
    /// the address of the slice at each step.
    #[inline(always)]
    pub fn copy(&self) -> SumList<'a>
        ensures same { result ≡ self.now }
        ensures half { IsHalf result }
    {
        SumList {
            words: self.words,
            full: self.full,
        }
    }

    /// The number of sets, from 0 to `ROOM`.
    pub fn len(&self) -> usize
        ensures count { result ≡ length self.now }
        ensures half { IsHalf self.now }
    {
        self.words.len()
    }

    /// Whether the list has no set. That of a half has at least the empty one.
    pub fn is_empty(&self) -> bool
        ensures { result ≡ (length self.now == 0) }
    {
        self.len() == 0
    }

    /// The set at this index.
    pub fn at(&self, index: usize) -> Entry
        requires within { index < length self.now }
        ensures same { result ≡ slice_index_or self.now index zero_entry }
        ensures half { IsHalf self.now }
    {
        let (words, full) = (self.words, self.full);
        let set = entry_of(words[index]);
        if index < full {
            return set;
        }
        Entry {
            sum: set.sum + MAX_TOTAL,
            mask: set.mask,
        }
    }

    /// Whether each set has less than `MAX_TOTAL` votes.
    pub fn is_below_limit(&self) -> bool
        ensures below { IsTrue result → All (λ e. e.sum < MAX_TOTAL) self.now }
    {
        self.is_empty() || self.at(self.len() - 1).sum < MAX_TOTAL
    }

    /// Like `at`, for a list whose sets have less than `MAX_TOTAL` votes: a step of a loop that calls
    /// this takes less time.
    #[inline(always)]
    pub fn at_below_limit(&self, index: usize) -> Entry
        requires within { index < length self.now }
        requires below { All (λ e. e.sum < MAX_TOTAL) self.now }
        ensures same { result ≡ slice_index_or self.now index zero_entry }
    {
        let words = self.words;
        entry_of(words[index])
    }
}

// The set in a word.
#[inline(always)]
fn entry_of(word: u64) -> Entry
    ensures set { result ≡ set_of word }
{
    Entry {
        sum: word >> 16,
        mask: (word % 65_536) as u16,
    }
}
