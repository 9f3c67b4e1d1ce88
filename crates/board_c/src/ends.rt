//! The numbers that a call returns for the end of a run or a reading.
ghost use Rattle.std.specs.Prelude.{◌≡◌};
ghost use Rattle.board_c.specs.Ends.{answer_of, record_of};

use crate::DONE;
use board_text::Fault;

// The result of the call.
pub(crate) fn answer_of(end: Option<Fault>) -> u8
    ensures { result ≡ answer_of end }
{
    match end {
        Some(fault) => fault.code,
        None => DONE,
    }
}

// The number of the fault's record, or 0.
pub(crate) fn record_of(end: Option<Fault>) -> u32
    ensures { result ≡ record_of end }
{
    match end {
        Some(fault) => fault.place,
        None => 0,
    }
}
