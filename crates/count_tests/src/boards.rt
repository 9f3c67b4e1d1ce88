//! Tests of the evaluators, on boards counted by hand and by going through all coalitions.
use crate::coalitions::TenChairs;
use crate::registers::all_members;
use council_core::{
    CHAIRS, ChairId, Command, MAX_TOTAL, MemberCode, Refusal, Register, SHEET_WORDS, Sheet, TOTAL,
    Votes,
};
use fixtures::open;
use half_sums::ROOM;
use majority_rule::Majority;
use power_index::{ChairPower, Evaluator, Fraction, Indices, LentEvaluator, ListRoom};
use std::alloc::Global;
use std::process::Abort;
use std::test::Fail;

// Opens all chairs, and moves the members into one after the other.
fn seat_all(register: &mut Register, members: &[(MemberCode, Votes)]) -> Result<(), Refusal> {
    for chair in 1..=32 {
        register.apply(open(chair)?)?;
    }
    for (index, member) in members.iter().enumerate() {
        let chair = ChairId::new((index % 32) as u8 + 1)?;
        register.apply(Command::Move(member.0, Some(chair)))?;
    }
    Ok(())
}

// The sheet of a register after all its members have moved into its chairs.
fn seated_sheet(
    register: &mut Register,
    members: &[(MemberCode, Votes)],
) -> Result<Sheet, Refusal> {
    seat_all(register, members)?;
    Ok(register.sheet())
}

// The sheet of a register with these members, in all chairs.
fn sheet_with(alloc: Global, members: &[(MemberCode, Votes)]) -> Result<Sheet, Refusal> {
    let mut register = Register::start(alloc, members, 288)?;
    seated_sheet(&mut register, members)
}

// The sheet at all limits: 32 chairs with the votes of eight members each, 2^48 votes in total.
fn largest_sheet(alloc: Global) -> Result<Sheet, Refusal> {
    let members = all_members(alloc)?;
    sheet_with(alloc, members.as_slice())
}

// The winning coalitions of 32 equal chairs by each majority, and the swings of each chair. A
// coalition wins with at least 17, 23, 28 and 17 chairs, and so a chair has its swings with 16, 22,
// 27 and 16 of the other 31: these are binomial coefficients, and sums of them.
const EQUALS: [(Majority, u64, u64); 4] = [
    (Majority::Half, 1_846_943_453, 300_540_195),
    (Majority::Seventy, 43_081_973, 20_160_075),
    (Majority::EightyFive, 41_449, 31_465),
    (Majority::Quorum, 1_846_943_453, 300_540_195),
];

// Whether 32 chairs have these winning coalitions and these swings each.
fn has(indices: &Indices, winning: u64, swings: u64) -> bool {
    let rows = indices.rows.as_slice();
    (indices.total, indices.winning, rows.len()) == (MAX_TOTAL, winning, 32)
        && rows.iter().all(|row| row.swings == swings)
}

fn count_equals<R: Abort>(rt: &R, evaluator: &mut Evaluator, room: &mut ListRoom, sheet: &Sheet) {
    evaluator.set(sheet);
    let lent = LentEvaluator::over(sheet, room);
    for (majority, winning, swings) in EQUALS {
        let indices = evaluator.evaluate(majority);
        assert!(rt; has(&indices, winning, swings) && lent.evaluate(majority) == indices);
    }
}

// Catches a `start`, an `apply` or an `Evaluator::new` that answers OutOfMemory though there is
// memory, and indices counted by going through 2^32 coalitions: no contract bounds the time.
#[test]
fn a_board_at_all_limits(rt: HostRuntime) -> Result<(), Fail> {
    let sheet = largest_sheet(rt.alloc())?;
    let mut evaluator = Evaluator::new(rt.alloc())?;
    let mut room = ListRoom {
        left: [7; ROOM],
        right: [7; ROOM],
    };
    count_equals(&rt, &mut evaluator, &mut room, &sheet);
    Ok(())
}

// The sheet of open chairs with these weights, spread over both halves, and of `outside` votes of
// members in no chair.
fn sheet_of(weights: &[u64], outside: u64) -> Result<Sheet, Refusal> {
    let mut words = [0; SHEET_WORDS];
    let mut total = outside;
    for (index, weight) in weights.iter().enumerate() {
        words[index * 3 % CHAIRS] = weight.saturating_add(1);
        total = total.saturating_add(*weight);
    }
    words[TOTAL] = total;
    Sheet::from_words(&words)
}

fn over(num: u64, den: u64) -> Fraction {
    Fraction { num, den }
}

// Three chairs with 50, 49 and 1 votes. With more than half win the first two, the first and the
// third, and all. So the first decides three times, and each other once.
fn count_three<R: Abort>(rt: &R, evaluator: &mut Evaluator) -> Result<(), Refusal> {
    evaluator.set(&sheet_of(&[50, 49, 1], 0)?);
    let indices = evaluator.evaluate(Majority::Half);
    let first = ChairPower {
        chair: ChairId::new(1)?,
        weight: 50,
        swings: 3,
        banzhaf: over(3, 4),
        share: Some(over(3, 5)),
        prevent: Some(over(3, 3)),
        initiate: over(3, 5),
    };
    let rows = indices.rows.as_slice();
    assert!(rt; (indices.quota, indices.winning, indices.coalitions) == (51, 3, 8));
    assert!(rt; rows.first() == Some(&first));
    assert!(rt; rows.iter().map(|row| row.swings).eq([3, 1, 1]));
    Ok(())
}

// Catches clauses and code that share a mistake: the counts are worked by hand.
#[test]
fn three_chairs_by_hand(rt: HostRuntime) -> Result<(), Fail> {
    let mut evaluator = Evaluator::new(rt.alloc())?;
    count_three(&rt, &mut evaluator)?;
    Ok(())
}

// The weights of ten open chairs, and the votes of members in no chair.
const BOARDS: [([u64; 10], u64); 6] = [
    ([50, 49, 1, 0, 0, 0, 0, 0, 0, 0], 40),
    ([1, 1, 1, 1, 1, 1, 1, 1, 1, 1], 0),
    ([9, 8, 7, 6, 5, 4, 3, 2, 1, 0], 1),
    ([12, 12, 12, 12, 11, 11, 10, 9, 3, 2], 30),
    (
        [
            831_401, 309_664, 306_288, 267_803, 203_010, 203_010, 267_000, 227_000, 218_000,
            208_000,
        ],
        0,
    ),
    (
        [1 << 40, 1 << 40, 1, 1, (1 << 40) - 1, 1 << 47, 0, 0, 0, 5],
        1 << 46,
    ),
];

// Whether the indices are those found by going through all coalitions.
fn agrees(indices: &Indices, chairs: &TenChairs<'_>) -> bool {
    let rows = indices.rows.as_slice();
    let mut bit = 1u32;
    let mut same = rows.len() == 10 && indices.winning == chairs.winning() as u64;
    for row in rows {
        same = same && row.swings == chairs.swings(bit) as u64;
        bit = bit.wrapping_mul(2);
    }
    same
}

fn count_boards<R: Abort>(rt: &R, evaluator: &mut Evaluator) -> Result<(), Refusal> {
    for (weights, outside) in BOARDS {
        let sheet = sheet_of(&weights, outside)?;
        evaluator.set(&sheet);
        for (majority, _, _) in EQUALS {
            let chairs = TenChairs {
                sheet: &sheet,
                weights: &weights,
                majority,
            };
            assert!(rt; agrees(&evaluator.evaluate(majority), &chairs));
        }
    }
    Ok(())
}

// Catches code built otherwise than it was proved, by a faulty compiler.
#[test]
fn ten_chairs_by_all_coalitions(rt: HostRuntime) -> Result<(), Fail> {
    let mut evaluator = Evaluator::new(rt.alloc())?;
    count_boards(&rt, &mut evaluator)?;
    Ok(())
}
