//! A law of schedules, stated as the contract of a function with an empty body.
ghost use Rattle.board_runs.specs.Writing.{ScheduleLaw};

/// Each record of a schedule, written as a CSV record with any of its fields quoted, reads as
/// itself.
pub fn schedule_law()
    ensures read_back { ScheduleLaw }
{}
