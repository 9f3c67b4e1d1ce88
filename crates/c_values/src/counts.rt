//! The counts in the form in which a caller in C gets them.
ghost use Rattle.std.specs.Prelude.{◌≡◌, ◌≤◌, ◌-◌, ◌++◌, length, map, replicate, IfOk, IfErr, None};
ghost use Rattle.c_values.specs.Counts.{AreCountsOf, IsSheetInRange, ShowsAllCounts, ShowsCounts, no_chair};
ghost use Rattle.majority_rule.specs.Majorities.{majority_numbered};
ghost use Rattle.council_core.specs.declared.refusals.Refusal.TheVariants.{BadRecord};
ghost use Rattle.c_values.specs.Rows.{AreCountsAmong, without_indices};

use council_core::{CHAIRS, Refusal, Sheet};
use majority_rule::Majority;
use power_index::{ChairPower, Indices, LentEvaluator, ListRoom};

/// An open chair, as `struct board_chair` in `board.h`.
#[repr(C)]
#[derive(Clone, Copy, Debug, PartialEq, Eq)]
pub struct BoardChair {
    /// The chair's number, from 1 to 32.
    pub chair: u64,
    /// The chair's weight, in votes.
    pub weight: u64,
    /// The chair's swings: the number of coalitions of the other open chairs that lose, and that
    /// win once the chair is added (Banzhaf 1965).
    pub swings: u64,
}

/// The least weight and size that win on a board, and the counts of its coalitions, as `struct
/// board_counts` in `board.h`.
#[repr(C)]
#[derive(Clone, Copy, Debug, PartialEq, Eq)]
pub struct BoardCounts {
    /// The least weight that wins, in votes.
    pub quota: u64,
    /// The least number of chairs that wins; 0 if the majority requires none.
    pub least_size: u64,
    /// The votes of all open chairs together.
    pub cast: u64,
    /// The total voting power, in votes.
    pub total: u64,
    /// The number of open chairs. The first `chairs` rows are theirs.
    pub chairs: u64,
    /// Omega: the number of winning coalitions.
    pub omega: u64,
    /// The number of all coalitions, 2^`chairs`.
    pub coalitions: u64,
    /// A row for each open chair, in ascending order of the chairs' numbers, followed by zeros.
    pub rows: [BoardChair; CHAIRS],
}

/// The counts by each of the four majorities, as `struct board_all_counts` in `board.h`.
#[repr(C)]
#[derive(Clone, Copy, Debug, PartialEq, Eq)]
pub struct BoardAllCounts {
    /// By more than half of the votes cast.
    pub half: BoardCounts,
    /// By at least 70 per cent of the total.
    pub seventy: BoardCounts,
    /// By at least 85 per cent of the total.
    pub eighty_five: BoardCounts,
    /// By more than half of the open chairs, with at least half of the total.
    pub quorum: BoardCounts,
}

// The chair, weight and swings of a row, without its indices.
fn chair_row_for(row: &ChairPower) -> BoardChair
    ensures { result ≡ without_indices row.now }
{
    BoardChair {
        chair: u64::from(row.chair.number()),
        weight: row.weight,
        swings: row.swings,
    }
}

// The rows of the open chairs, followed by zeros.
fn rows_for(rows: &[ChairPower]) -> [BoardChair; CHAIRS]
    requires { length rows.now ≤ CHAIRS }
    ensures { result ≡ map without_indices rows.now ++ replicate (CHAIRS - length rows.now) no_chair }
{
    let mut chairs = [BoardChair {
        chair: 0,
        weight: 0,
        swings: 0,
    }; CHAIRS];
    for index in 0..rows.len() {
        chairs[index] = chair_row_for(&rows[index]);
    }
    chairs
}

fn counts_for(indices: &Indices) -> BoardCounts
    ensures { AreCountsAmong indices.now result }
{
    BoardCounts {
        quota: indices.quota,
        least_size: u64::from(indices.least_size),
        cast: indices.cast,
        total: indices.total,
        chairs: u64::from(indices.chairs),
        omega: indices.winning,
        coalitions: indices.coalitions,
        rows: rows_for(indices.rows.as_slice()),
    }
}

// The counts of a sheet by a majority, with its lists in `room`.
fn sheet_counts_for(sheet: &Sheet, majority: Majority, room: &mut ListRoom) -> BoardCounts
    ensures counts { AreCountsOf majority sheet.now result }
{
    counts_by(&LentEvaluator::over(sheet, room), majority)
}

/// The counts of a sheet by each majority, from lists that are built once in `room`.
pub fn all_counts_for(sheet: &Sheet, room: &mut ListRoom) -> BoardAllCounts
    requires whole { IsSheetInRange sheet.now }
    ensures counts { ShowsAllCounts sheet.now result }
{
    let evaluator = LentEvaluator::over(sheet, room);
    BoardAllCounts {
        half: counts_by(&evaluator, Majority::Half),
        seventy: counts_by(&evaluator, Majority::Seventy),
        eighty_five: counts_by(&evaluator, Majority::EightyFive),
        quorum: counts_by(&evaluator, Majority::Quorum),
    }
}

/// The counts of a sheet by the majority with this number, with its lists in `room`: 0 to 3 for
/// `Half`, `Seventy`, `EightyFive` and `Quorum`.
///
/// # Errors
///
/// `Refusal::BadRecord` if no majority has this number.
pub fn counts_by_number(
    sheet: &Sheet,
    number: u32,
    room: &mut ListRoom,
) -> Result<BoardCounts, Refusal>
    requires whole { IsSheetInRange sheet.now }
    ensures counts { IfOk result (λ c. ShowsCounts number sheet.now c) }
    ensures refused { IfErr result (λ why. (why ≡ BadRecord) × (majority_numbered number ≡ None)) }
{
    let Some(majority) = Majority::from_number(number) else {
        return Err(Refusal::BadRecord);
    };
    Ok(sheet_counts_for(sheet, majority, room))
}

fn counts_by(evaluator: &LentEvaluator, majority: Majority) -> BoardCounts
    ensures counts { AreCountsOf majority evaluator.now result }
{
    let indices = evaluator.evaluate(majority);
    counts_for(&indices)
}
