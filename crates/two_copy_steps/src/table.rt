//! The shared words and their layout:
//!
//!     word  0          side: the copy that is published, 0 or 1
//!     words 1 to 34    copy 0, the words of a sheet
//!     words 35 to 68   copy 1
//!     words 69 on      a pin for each reader: 1 while it is in a reading, else 0
ghost use Rattle.std.specs.Prelude.{◌≡◌, ℕ, List, ◌<◌, ◌≤◌, ◌+◌, ◌++◌, ◌∷◌, length, replicate};
ghost use Rattle.std.specs.Prelude.{slice_index, slice_set};
ghost use Rattle.two_copy_steps.specs.declared.table.TheConstants.{READERS, WORDS};
ghost use Rattle.two_copy_steps.specs.Actions.{pin, copy_word};
ghost use Rattle.two_copy_steps.specs.Stages.{accessed_word, left_by};

use crate::stages::Access;
use arrayvec::ArrayVec;
use council_core::SHEET_WORDS;
use std::marker::Model;

/// The index of the word that names the published copy.
pub const SIDE: usize = 0;

/// The number of words in a copy, which are those of a sheet.
pub const COPY_WORDS: usize = SHEET_WORDS;

/// The largest number of readers.
pub const READERS: usize = 4;

// The index of the first word of copy 0.
const COPY_0: usize = SIDE + 1;

// The index of the first word of copy 1.
const COPY_1: usize = COPY_0 + COPY_WORDS;

// The index of the first pin.
const PINS: usize = COPY_1 + COPY_WORDS;

// The largest number of words.
const WORDS: usize = PINS + READERS;

/// The shared words: side, copy 0, copy 1, and a pin for each reader.
#[derive(Debug, Drop)]
pub struct Table {
    words: ArrayVec<u64, WORDS>,
}

impl Model for Table {
    ghost Value = { List ℕ };

    ghost view = { λ t. t.words.items };
}

impl Table {
    /// The table with side 0, this sheet in both copies, and all pins at 0, for at most `READERS`
    /// readers.
    pub fn start(sheet: &[u64; COPY_WORDS], readers: u8) -> Table
        requires bound { readers ≤ READERS }
        ensures words { result ≡ 0 ∷ sheet.now ++ sheet.now ++ replicate readers 0 }
    {
        let mut words = ArrayVec::new();
        words.push(0);
        append(&mut words, sheet);
        append(&mut words, sheet);
        append(&mut words, &[0; READERS][..readers as usize]);
        Table { words }
    }

    /// The words, in order.
    pub fn as_slice(&self) -> &[u64]
        ensures same { result.now ≡ self.now }
    {
        self.words.as_slice()
    }

    // Carries out a step's access to its word, and returns the number that is then in it.
    pub(crate) fn touch(&mut self, access: Access) -> u64
        requires within { accessed_word access < length self.old }
        ensures words { self.new
            ≡ slice_set self.old (accessed_word access)
            (left_by access (slice_index self.old (accessed_word access))) }
        ensures found { result ≡ left_by access (slice_index self.old (accessed_word access)) }
    {
        match access {
            Access::Load(index) => self.load(index),
            Access::Store(index, word) => {
                self.store(index, word);
                word
            }
        }
    }

    // The word at this index.
    pub(crate) fn load(&self, index: usize) -> u64
        requires within { index < length self.now }
        ensures { result ≡ slice_index self.now index }
    {
        self.as_slice()[index]
    }

    // Stores a word at this index.
    pub(crate) fn store(&mut self, index: usize, word: u64)
        requires within { index < length self.old }
        ensures { self.new ≡ slice_set self.old index word }
    {
        self.words.as_mut_slice()[index] = word;
    }
}

// Appends these words.
fn append(words: &mut ArrayVec<u64, WORDS>, more: &[u64])
    requires room { length words.old.items + length more.now ≤ WORDS }
    ensures added { words.new.items ≡ words.old.items ++ more.now }
{
    match words.try_extend_from_slice(more) {
        Ok(()) => {}
        Err(_) => unreachable!(),
    }
}

/// The index of word `k`, below `COPY_WORDS`, of the copy that `side` names.
pub fn copy_word(side: u64, k: usize) -> usize
    requires within { k < COPY_WORDS }
    ensures same { result ≡ copy_word side k }
    ensures low { result < PINS }
{
    if side == 0 { COPY_0 + k } else { COPY_1 + k }
}

/// The index of the pin of reader `r`, counted from 0.
pub fn pin(r: u8) -> usize
    ensures same { result ≡ pin r }
    ensures low { r < READERS → result < WORDS }
{
    PINS + r as usize
}
