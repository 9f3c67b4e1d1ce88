//! Calls that need no memory: they make no growth.
use crate::harness::asks_for_none;
use crate::refused_growths::{analyst_of, board_over, last_reader, submit_open, with_commands};
use board_share::{Analyst, Reader, Writer};
use council_core::{
    ChairId, FRONT, MemberCode, Refusal, Register, SHEET_WORDS, Sheet, TOTAL, Votes,
};
use fixtures::open;
use half_sums::HalfSums;
use majority_rule::{Majority, least_size, quota, wins};
use power_index::{Evaluator, LentEvaluator, ListRoom};
use std::alloc::Global;
use std::sync::Wait;
use std::test::Fail;
use swing_walk::count;
use two_copy_steps::{Event, Flags, Machine, Note};

// The numbers of a sheet with 10 of 30 votes in chair 1 after two commands, of votes and of a
// refusal's name, a code's letters, and whether too many votes are refused.
fn look_at_values() -> Result<([u64; 12], [u8; 3], bool), Refusal> {
    let mut words = [0; SHEET_WORDS];
    words[0] = 11;
    words[TOTAL] = 30;
    words[FRONT] = 2;
    let sheet = Sheet::from_words(&words)?;
    let weight = sheet.weight(ChairId::new(1)?).unwrap_or_default();
    let why = Refusal::from_code(10).ok_or(Refusal::BadLimit)?;
    let numbers = [
        weight,
        sheet.cast(),
        sheet.total(),
        u64::from(sheet.front()),
        u64::from(sheet.chairs()),
        quota(Majority::Half, &sheet),
        quota(Majority::EightyFive, &sheet),
        u64::from(least_size(Majority::Quorum, &sheet)),
        u64::from(wins(Majority::Seventy, &sheet, 10, 1)),
        Votes::new(7)?.number(),
        why.name().len() as u64,
        MemberCode::new(b"AAA")?.as_str().len() as u64,
    ];
    Ok((
        numbers,
        MemberCode::new(b"AAA")?.letters(),
        Votes::new(u64::MAX).is_err(),
    ))
}

// Six numbers of a register, and its answers to a command that it accepts and one that it refuses.
fn look_at_register(
    register: &mut Register,
) -> Result<([u64; 6], [Result<(), Refusal>; 2], Result<u32, Refusal>), Refusal> {
    let (new, old) = (open(2)?, open(1)?);
    let votes = match register.member_at(1) {
        Some(row) => row.votes.number(),
        None => 0,
    };
    let numbers = [
        votes,
        u64::from(register.accepted()),
        register.journal().len() as u64,
        register.sheet_word(FRONT),
        register.sheet().words()[FRONT],
        u64::from(register.member_rows().next().is_some()),
    ];
    let checks = [register.check(new), register.check(old)];
    Ok((numbers, checks, register.apply(old)))
}

// The number of changed blocks, then the quota, the winning coalitions and the swings of the first
// chair, the winning coalitions at another majority, the front, and the winning coalitions counted
// in other memory.
fn count_all(evaluator: &mut Evaluator, sheet: &Sheet) -> [u64; 7] {
    let mut room = ListRoom::new();
    let blocks = evaluator.set(sheet);
    let half = evaluator.evaluate(Majority::Half);
    let swings = match half.rows.as_slice().first() {
        Some(row) => row.swings,
        None => 0,
    };
    [
        u64::from(blocks),
        half.quota,
        half.winning,
        swings,
        evaluator.evaluate(Majority::Quorum).winning,
        u64::from(evaluator.sheet().front()),
        LentEvaluator::over(sheet, &mut room)
            .evaluate(Majority::Half)
            .winning,
    ]
}

// Of a chair with two votes and one with one: the number of sets, of sets of one chair, the
// greatest sum, the number of pairs of sets that have three votes, and whether there is no set.
fn list_sets(half: &mut HalfSums) -> ([u64; 4], bool) {
    half.rebuild(&[(0, 2), (1, 1)]);
    let sets = half.ascending();
    let greatest = if sets.len() == 4 { sets.at(3).sum } else { 0 };
    let numbers = [
        half.entries().len() as u64,
        half.group(1).len() as u64,
        greatest,
        count(half, half, 3, 0).winning,
    ];
    (numbers, sets.is_empty())
}

// Takes the steps of an event that is repeated.
fn repeat(machine: &mut Machine, event: &Event, times: u32) -> Result<(), Refusal> {
    for _ in 0..times {
        machine.step(*event)?;
    }
    Ok(())
}

// A command for which the journal has room, its publication, and a reading: whether that is done
// with the last step.
fn take_turns(machine: &mut Machine) -> Result<bool, Refusal> {
    repeat(machine, &Event::Submit(open(3)?), 1)?;
    repeat(machine, &Event::Publish, 1)?;
    repeat(machine, &Event::Writer, 35)?;
    repeat(machine, &Event::Reader(2), 36)?;
    Ok(matches!(machine.step(Event::Reader(2))?, Note::Read(2, _)))
}

// Starts a machine and takes these steps: also the number of published commands, whether reader 2
// is quiescent, and whether the flags of two readers are of none.
fn start_machine(kept: &mut Option<Register>) -> Result<(bool, u32, [bool; 2]), Refusal> {
    let register = kept.take().ok_or(Refusal::BadLimit)?;
    let mut machine = Machine::start(register, 2).map_err(|(_, why)| why)?;
    let is_read = take_turns(&mut machine)?;
    let flags = [machine.seen_out(2), Flags::start(2).is_empty()];
    Ok((is_read, machine.published(), flags))
}

// Two commands for which the journal has room, published in turn: what each call answers, and
// whether reader 1 is quiescent.
fn publish_two<R: Wait>(rt: &R, writer: &mut Writer) -> Result<([u32; 4], usize, bool), Refusal> {
    submit_open(writer, 3)?;
    let tried = writer.try_publish().map_err(|_| Refusal::Mismatch)?;
    let submitted = submit_open(writer, 4)?;
    let published = [tried, submitted, writer.publish(rt), writer.published()];
    Ok((published, writer.journal().len(), writer.seen_out(1)))
}

// Reads step by step and at once: the fronts that were read, and the reader's number.
fn read_twice(reader: &mut Reader) -> Option<(u32, u32, u8)> {
    let mut stepped = None;
    for _ in 0..37 {
        stepped = reader.step();
    }
    if !reader.at_rest() {
        return None;
    }
    Some((
        stepped?.sheet.front(),
        reader.read().sheet.front(),
        reader.number(),
    ))
}

// A question: the quota, the winning coalitions, the front of the sheet, and the reader's number.
fn ask_half(kept: &mut Option<Analyst>) -> Option<(u64, u64, u32, u8)> {
    let mut analyst = kept.take()?;
    let half = analyst.ask(Majority::Half);
    let front = analyst.sheet().front();
    Some((
        half.quota,
        half.winning,
        front,
        analyst.into_reader().number(),
    ))
}

fn analyst(alloc: Global) -> Result<Option<Analyst>, Refusal> {
    let reader = last_reader(alloc, with_commands(alloc, 5)?, 1)?;
    Ok(Some(analyst_of(alloc, reader).map_err(|(_, why)| why)?))
}

fn values_need_none(alloc: Global) -> Result<bool, Refusal> {
    let values = ([10, 10, 30, 2, 1, 6, 26, 1, 0, 7, 11, 3], *b"AAA", true);
    asks_for_none(alloc, |_| Ok(()), |_| look_at_values(), values)
}

// A register that has accepted this number of commands.
fn a_register_needs_none(alloc: Global, commands: u8) -> Result<bool, Refusal> {
    let (front, refused) = (u64::from(commands), Refusal::ChairOpen);
    let checks = [Ok(()), Err(refused)];
    let answers = ([20, front, front, front, front, 1], checks, Err(refused));
    let begin = |alloc| with_commands(alloc, commands);
    asks_for_none(alloc, begin, look_at_register, answers)
}

fn counting_needs_none(alloc: Global) -> Result<bool, Refusal> {
    let counting = |alloc| Ok((Evaluator::new(alloc)?, with_commands(alloc, 5)?.sheet()));
    let count = |state: &mut (Evaluator, Sheet)| Ok(count_all(&mut state.0, &state.1));
    asks_for_none(alloc, counting, count, [1, 11, 8, 8, 4, 5, 8])
}

fn a_list_of_sets_needs_none(alloc: Global) -> Result<bool, Refusal> {
    let list = |half: &mut HalfSums| Ok(list_sets(half));
    asks_for_none(alloc, HalfSums::new, list, ([4, 2, 3, 10], false))
}

fn a_machine_needs_none(alloc: Global) -> Result<bool, Refusal> {
    let kept = |alloc| Ok(Some(with_commands(alloc, 2)?));
    asks_for_none(alloc, kept, start_machine, (true, 3, [false; 2]))
}

fn a_writer_needs_none<R: Wait>(rt: &R, alloc: Global) -> Result<bool, Refusal> {
    let board = |alloc| board_over(alloc, with_commands(alloc, 2)?, 2);
    let publish = |board: &mut (Writer, Vec<Reader>)| publish_two(rt, &mut board.0);
    asks_for_none(alloc, board, publish, ([3, 4, 4, 4], 4, false))
}

fn a_reader_needs_none(alloc: Global) -> Result<bool, Refusal> {
    let reader = |alloc| last_reader(alloc, with_commands(alloc, 5)?, 1);
    let read = |reader: &mut Reader| read_twice(reader).ok_or(Refusal::BadReader);
    asks_for_none(alloc, reader, read, (5, 5, 1))
}

fn an_analyst_needs_none(alloc: Global) -> Result<bool, Refusal> {
    let ask = |kept: &mut Option<Analyst>| ask_half(kept).ok_or(Refusal::BadReader);
    asks_for_none(alloc, analyst, ask, (11, 8, 5, 1))
}

// Catches a call that allocates: no contract says that a call needs no memory.
#[test]
fn calls_without_memory(rt: HostRuntime) -> Result<(), Fail> {
    let alloc = rt.alloc();
    assert!(rt; values_need_none(alloc)?);
    for commands in [2, 4, 5] {
        assert!(rt; a_register_needs_none(alloc, commands)?, "{commands}");
    }
    assert!(rt; counting_needs_none(alloc)?);
    assert!(rt; a_list_of_sets_needs_none(alloc)?);
    assert!(rt; a_machine_needs_none(alloc)?);
    assert!(rt; a_writer_needs_none(&rt, alloc)?);
    assert!(rt; a_reader_needs_none(alloc)?);
    assert!(rt; an_analyst_needs_none(alloc)?);
    Ok(())
}
