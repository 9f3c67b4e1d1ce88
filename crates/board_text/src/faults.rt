//! The error of a run that its caller gets.
ghost use Rattle.std.specs.Prelude.{◌≡◌, ◌≤◌, length};
ghost use Rattle.council_core.specs.Refusals.{refusal_of};
ghost use Rattle.board_text.specs.Lines.{fault_name};
ghost use Rattle.board_text.specs.Text.{fault_at};

use council_core::Refusal;
use std::error::Error;
use std::fmt;

/// The error that ended a run, once its line is written.
#[derive(Clone, Copy, Debug, PartialEq, Eq)]
pub struct Fault {
    /// The number of the refusal, as by `Refusal::code`.
    pub code: u8,
    /// The number of the record at fault, counted from 1, or 0 if the fault concerns no record.
    pub place: u32,
}

impl Fault {
    /// The fault of a refusal at a record's number, or at 0.
    pub fn new(why: Refusal, number: u32) -> Fault
        ensures same { result ≡ fault_at why number }
    {
        Fault {
            code: why.code(),
            place: number,
        }
    }

    /// The refusal of this fault; `None` if no refusal has the number `code`.
    pub fn refusal(&self) -> Option<Refusal>
        ensures same { result ≡ refusal_of self.now.code }
    {
        Refusal::from_code(self.code)
    }

    /// The name of the refusal of this fault, as the output writes it, in at most 16 bytes; empty
    /// if no refusal has the number `code`.
    pub fn name(&self) -> &'static str
        ensures name { result.now ≡ fault_name self.now.code }
        ensures short { length result.now ≤ 16 }
    {
        match self.refusal() {
            Some(why) => why.name(),
            None => "",
        }
    }
}

impl fmt::Display for Fault {
    /// Writes the reason in words, and the number of the record at fault, if any.
    fn fmt<W: fmt::Write>(&self, f: &mut fmt::Formatter<W>) -> fmt::Result {
        match self.refusal() {
            Some(why) => why.fmt(f)?,
            None => write!(f, "fault {}", self.code)?,
        }
        if self.place == 0 {
            return Ok(());
        }
        write!(f, ", at record {}", self.place)
    }
}

impl Error for Fault {}
