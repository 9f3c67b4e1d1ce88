//! The set of quiescent readers.
ghost use Rattle.std.specs.Prelude.{◌≡◌, ◌==◌, List, Bool, ◌<◌, ◌≤◌, true, false, Some, length, replicate};
ghost use Rattle.std.specs.Prelude.{slice_get, slice_set};
ghost use Rattle.two_copy_steps.specs.declared.table.TheConstants.{READERS};
ghost use Rattle.two_copy_steps.specs.Actions.{all_true, first_false};
ghost use Rattle.two_copy_steps.specs.Publications.{seen_out_at};

use crate::table::READERS;
use arrayvec::ArrayVec;
use std::marker::Model;

/// For each reader, of at most `READERS`, whether it is quiescent.
#[derive(Debug, Drop)]
pub struct Flags {
    flags: ArrayVec<bool, READERS>,
}

impl Model for Flags {
    ghost Value = { List Bool };

    ghost view = { λ f. f.flags.items };
}

impl Flags {
    /// The number of readers, at most `READERS`.
    pub fn len(&self) -> u8
        ensures number { result ≡ length self.now }
        ensures bound { result ≤ READERS }
    {
        self.flags.as_slice().len() as u8
    }

    /// Whether there is no reader. A machine has at least one.
    pub fn is_empty(&self) -> bool
        ensures { result ≡ (length self.now == 0) }
    {
        self.len() == 0
    }

    /// Whether reader `r`, counted from 0, is quiescent.
    pub fn get(&self, r: u8) -> bool
        requires within { r < length self.now }
        ensures same { slice_get self.now r ≡ Some result }
    {
        self.flags.as_slice()[r as usize]
    }

    /// Whether the reader with this number, counted from 1, is quiescent. False if no reader has
    /// this number.
    pub fn has(&self, number: u8) -> bool
        ensures same { result ≡ seen_out_at self.now number }
    {
        if number == 0 || self.len() < number {
            return false;
        }
        self.get(number - 1)
    }

    /// The flags of `readers` readers, all quiescent.
    pub fn start(readers: u8) -> Flags
        requires { readers ≤ READERS }
        ensures { result ≡ replicate readers true }
    {
        let mut flags = ArrayVec::new();
        for _reader in 0..readers {
            flags.push(true);
        }
        Flags { flags }
    }

    /// The first reader that is not quiescent, counted from 0, or the number of readers if all are.
    pub fn first_false(&self) -> u8
        ensures first { result ≡ first_false self.now }
        ensures bound { result ≤ READERS }
    {
        first_false(self.flags.as_slice()) as u8
    }

    /// Whether all readers are quiescent.
    pub fn all_true(&self) -> bool
        ensures { result ≡ all_true self.now }
    {
        all_true(self.flags.as_slice())
    }

    /// Marks reader `r`, counted from 0, as quiescent.
    pub fn set(&mut self, r: u8)
        requires within { r < length self.old }
        ensures { self.new ≡ slice_set self.old r true }
    {
        self.flags.as_mut_slice()[r as usize] = true;
    }

    /// Marks all readers as not quiescent.
    pub fn clear(&mut self)
        ensures { self.new ≡ replicate (length self.old) false }
    {
        self.flags.as_mut_slice().fill(false);
    }
}

// The index of the first false, or the number of flags if all are true.
fn first_false(flags: &[bool]) -> usize
    ensures first { result ≡ first_false flags.now }
    ensures bound { result ≤ length flags.now }
{
    match flags {
        [true, rest @ ..] => first_false(rest) + 1,
        _ => 0,
    }
}

// Whether all flags are true.
fn all_true(flags: &[bool]) -> bool
    ensures { result ≡ all_true flags.now }
{
    match flags {
        [] => true,
        [first, rest @ ..] => *first && all_true(rest),
    }
}
