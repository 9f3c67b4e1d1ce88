//! A caller of `board_text`.
ghost use Rattle.std.specs.Prelude.{◌≡◌, IfOk, option_and_then, slice_get};
ghost use Rattle.std.specs.Result.{result_ok};
ghost use Rattle.csv.specs.Reading.{default_config, records, strip_bom};
ghost use Rattle.board_text.specs.Text.{request_within};

use board_text::{Limits, Request, Script, Stop, request_in};
use csv::ByteRecord;
use std::alloc::Global;

/// Returns the request of the first record of `text`, or `None` if there is no record. A record that is not well
/// formed, or whose reader number is out of range, is an error.
pub fn first_request(alloc: Global, text: &[u8], limits: Limits) -> Result<Option<Request>, Stop>
    ensures request { IfOk result (λ request. request
        ≡ option_and_then (λ row. result_ok (request_within limits row))
        (slice_get (records default_config (strip_bom text.now)) 0)) }
{
    let mut script = Script::new(alloc, text);
    let mut row = ByteRecord::new(alloc);
    if !script.next(&mut row)? {
        return Ok(None);
    }
    match request_in(limits, &row) {
        Ok(request) => Ok(Some(request)),
        Err(why) => Err(Stop::at(why, 1)),
    }
}
