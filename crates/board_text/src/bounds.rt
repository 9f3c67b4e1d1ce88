//! The limits of a run.
ghost use Rattle.std.specs.Prelude.{◌≡◌, Some, None, if◌then◌else◌};
ghost use Rattle.board_text.specs.Text.{in_range, is_reader};

use council_core::MAX_COMMANDS;

/// The most readers of a run, which is also the most readers of the two-copy machine.
pub const READERS: usize = 4;

/// The limits of a run, chosen by its caller. Limits out of range are the fault `BadLimit` of the
/// run.
#[derive(Clone, Copy, Debug, PartialEq, Eq)]
pub struct Limits {
    /// The number of readers, from 1 to `READERS`.
    pub readers: u8,
    /// The most commands that the journal accepts, from 1 to `MAX_COMMANDS`.
    pub journal: u32,
}

impl Default for Limits {
    /// One reader, and `MAX_COMMANDS` commands.
    fn default() -> Limits
        ensures { result ≡ record { readers = 1; journal = MAX_COMMANDS } }
    {
        Limits {
            readers: 1,
            journal: MAX_COMMANDS,
        }
    }
}

impl Limits {
    /// Whether both limits are in range.
    pub fn is_in_range(self) -> bool
        ensures known { result ≡ in_range self }
    {
        let readers = usize::from(self.readers);
        1 <= readers && readers <= READERS && 1 <= self.journal && self.journal <= MAX_COMMANDS
    }

    /// The reader of this number, counted from 1; `None` if the limits have none of this number.
    pub fn reader(self, number: u64) -> Option<u8>
        ensures known { result ≡ (if is_reader self number then Some number else None) }
    {
        if 1 <= number && number <= u64::from(self.readers) {
            return Some(number as u8);
        }
        None
    }
}
