//! A device in memory, to read and to write, that answers each call as its plan says.
ghost use Rattle.std.specs.Prelude.{◌≤◌, IfOk};

use std::alloc::Global;
use std::io;
use std::io::{ErrorKind, Read, Write};
use std::sync::atomic::{AtomicU64, Ordering};

/// The answer of a device to a call.
#[derive(Clone, Copy, Debug, PartialEq, Eq)]
pub(crate) enum Answer {
    /// Moves at most this many bytes.
    Moves(usize),
    Fails(ErrorKind),
}

impl Answer {
    /// The answer that a caller got.
    pub(crate) fn of(got: io::Result<usize>) -> Answer {
        match got {
            Ok(count) => Answer::Moves(count),
            Err(e) => Answer::Fails(e.kind()),
        }
    }
}

pub(crate) const BYTE: Answer = Answer::Moves(1);

pub(crate) const INTERRUPTED: Answer = Answer::Fails(ErrorKind::Interrupted);

pub(crate) const BROKEN: Answer = Answer::Fails(ErrorKind::Other);

/// The answers of a device in order, each with the number of calls that get it. Calls after those
/// move all bytes that they can.
pub(crate) type Plan<'a> = &'a [(u64, Answer)];

/// The plan of a device that moves all bytes.
pub(crate) const WHOLE: Plan<'static> = &[];

// The answer to the call of this number, counted from 0.
fn planned(plan: Plan<'_>, call: u64) -> Answer {
    let mut after = 0u64;
    for (calls, answer) in plan {
        after = after.saturating_add(*calls);
        if call < after {
            return *answer;
        }
    }
    Answer::Moves(usize::MAX)
}

// The most bytes that a read may ask for (docs/FORMATS.md).
const PIECE: usize = 4096;

/// A device with a plan, the bytes that it has left to read, and those that were written. It counts
/// its calls, and fails if it is asked for too many bytes at once.
#[derive(Drop)]
pub(crate) struct Device<'a> {
    plan: Plan<'a>,
    calls: &'a AtomicU64,
    left: &'a [u8],
    taken: Vec<u8>,
}

impl<'a> Device<'a> {
    pub(crate) fn new(
        alloc: Global,
        plan: Plan<'a>,
        calls: &'a AtomicU64,
        left: &'a [u8],
    ) -> Device<'a> {
        Device {
            plan,
            calls,
            left,
            taken: Vec::new(alloc),
        }
    }

    /// The bytes that were written.
    pub(crate) fn into_taken(self) -> Vec<u8> {
        let Device { taken, .. } = self;
        taken
    }

    // The answer to a call that can move `most` bytes.
    fn answer(&self, most: usize) -> io::Result<usize>
        ensures bound { IfOk result (λ n. n ≤ most) }
    {
        match planned(self.plan, self.calls.fetch_add(1, Ordering::SeqCst)) {
            Answer::Moves(count) => Ok(count.min(most)),
            Answer::Fails(kind) => Err(io::Error::from(kind)),
        }
    }
}

impl<'a> Read for Device<'a> {
    fn read(&mut self, buf: &mut [u8]) -> io::Result<usize> {
        if buf.len() > PIECE {
            return Err(io::Error::from(ErrorKind::InvalidInput));
        }
        let count = self.answer(buf.len().min(self.left.len()))?;
        let (given, left) = self.left.split_at(count);
        buf[..count].copy_from_slice(given);
        self.left = left;
        Ok(count)
    }
}

impl<'a> Write for Device<'a> {
    fn write(&mut self, buf: &[u8]) -> io::Result<usize> {
        let count = self.answer(buf.len())?;
        match self.taken.extend_from_slice(&buf[..count]) {
            Ok(()) => Ok(count),
            Err(_) => Err(io::Error::from(ErrorKind::OutOfMemory)),
        }
    }

    fn flush(&mut self) -> io::Result<()> {
        Ok(())
    }
}
