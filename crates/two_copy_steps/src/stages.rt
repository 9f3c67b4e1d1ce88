//! A reader's steps as code: the word that the next step accesses, and the reader's stage after it.
ghost use Rattle.std.specs.Prelude.{◌≡◌, ◌↔◌, ℕ, ◌<◌, ◌≤◌, IsTrue};
ghost use Rattle.two_copy_steps.specs.declared.views.Stage.TheVariants.{AtRest};
ghost use Rattle.two_copy_steps.specs.Actions.{pin, stage_action};
ghost use Rattle.two_copy_steps.specs.Stages.{IsReadable, IsPcPast, accessed_word, left_by, sheet_read};

use crate::table::{COPY_WORDS, SIDE, copy_word, pin};
use council_core::Sheet;
use std::marker::Model;

/// A step's access to its word.
#[derive(Clone, Copy, Debug, PartialEq, Eq, Hash)]
pub enum Access {
    /// Loads the word at this index.
    Load(usize),
    /// Stores this number in the word at this index.
    Store(usize, u64),
}

// The program counter of a reader, without its side and its words.
#[derive(Clone, Copy, Debug)]
pub(crate) enum ReaderPc {
    AtRest,
    Arrived,
    // The number of words that it has loaded.
    Reading(usize),
    Leaving,
}

/// How far a reader is in its reading. It is changed in place, so no step moves the words that were
/// loaded before it.
#[derive(Debug, Drop)]
pub struct ReaderStage {
    pc: ReaderPc,
    side: u64,
    words: [u64; COPY_WORDS],
}

impl Model for ReaderStage {
    ghost use Rattle.two_copy_steps.specs.declared.views.Stage.{Stage};
    ghost use Rattle.two_copy_steps.specs.Stages.{stage_of};

    ghost Value = { Stage };

    ghost view = { λ s. stage_of s.pc s.side s.words };
}

impl Default for ReaderStage {
    /// A reader at rest.
    fn default() -> ReaderStage
        ensures rest { result ≡ AtRest }
    {
        ReaderStage::new()
    }
}

impl ReaderStage {
    /// A reader at rest.
    pub fn new() -> ReaderStage
        ensures rest { result ≡ AtRest }
    {
        ReaderStage {
            pc: ReaderPc::AtRest,
            side: 0,
            words: [0; COPY_WORDS],
        }
    }

    /// Whether no reading is in progress.
    pub fn is_at_rest(&self) -> bool
        ensures rest { IsTrue result ↔ (self.now ≡ AtRest) }
    {
        matches!(self.pc, ReaderPc::AtRest)
    }

    /// Abandons the reading that is in progress, if there is one.
    pub fn give_up(&mut self)
        ensures rest { self.new ≡ AtRest }
    {
        self.pc = ReaderPc::AtRest;
    }

    /// The access of the next step of reader `r`, counted from 0, to its word.
    pub fn access(&self, r: u8) -> Access
        requires readable { IsReadable self.now }
        ensures word { accessed_word result ≡ (stage_action r self.now).word }
        ensures low { accessed_word result ≤ pin r }
        ensures becomes { (n : ℕ) → left_by result n ≡ (stage_action r self.now).becomes n }
        ensures after { (n : ℕ)
            → (stage_action r self.now).after (left_by result n)
            ≡ (stage_action r self.now).after n }
    {
        match self.pc {
            ReaderPc::AtRest => Access::Store(pin(r), 1),
            ReaderPc::Arrived => Access::Load(SIDE),
            ReaderPc::Reading(k) => Access::Load(copy_word(self.side, k)),
            ReaderPc::Leaving => Access::Store(pin(r), 0),
        }
    }

    /// Advances the stage past a step that left `found` in its word. After the last step of a
    /// reading it returns the sheet that was read, otherwise `None`.
    pub fn advance(&mut self, found: u64) -> Option<Sheet>
        requires readable { IsReadable self.old }
        ensures stage { (r : ℕ) → self.new ≡ (stage_action r self.old).after found }
        ensures sheet { result ≡ sheet_read self.old }
    {
        match self.pc {
            ReaderPc::AtRest => {
                self.pc = ReaderPc::Arrived;
                None
            }
            ReaderPc::Arrived => {
                self.side = found;
                self.pc = ReaderPc::Reading(0);
                None
            }
            ReaderPc::Reading(k) => {
                self.words[k] = found;
                self.pc = pc_past(k);
                None
            }
            ReaderPc::Leaving => {
                self.pc = ReaderPc::AtRest;
                Some(Sheet::from_words_unchecked(&self.words))
            }
        }
    }
}

// After the last word, the pin is next.
fn pc_past(k: usize) -> ReaderPc
    requires { k < COPY_WORDS }
    ensures { IsPcPast k result }
{
    if k + 1 == COPY_WORDS {
        ReaderPc::Leaving
    } else {
        ReaderPc::Reading(k + 1)
    }
}
