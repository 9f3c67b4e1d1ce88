//! Worked examples of the calls of the register, of sheets and of evaluators, for readers.
use crate::registers::all_members;
use council_core::{
    ChairId, Command, FRONT, MAX_COMMANDS, MAX_VOTES, MemberCode, Refusal, Register, SHEET_WORDS,
    Sheet, TOTAL, Votes,
};
use fixtures::{member, open, register, seat, set_votes};
use majority_rule::Majority;
use power_index::Evaluator;
use std::alloc::Global;
use std::process::Abort;
use std::test::Fail;

// How many of the blocks of chairs 1 to 16 and 17 to 32 each sheet changes: after AAA sits in chair
// 16 and BBB in chair 17, after the votes of each change, for the same sheet, and after BBB is given
// the votes that it has.
fn changed_blocks(register: &mut Register, evaluator: &mut Evaluator) -> Result<[u8; 5], Refusal> {
    for command in [open(16)?, seat("AAA", 16)?, open(17)?, seat("BBB", 17)?] {
        register.apply(command)?;
    }
    let both = evaluator.set(&register.sheet());
    register.apply(set_votes("AAA", 11)?)?;
    let first = evaluator.set(&register.sheet());
    register.apply(set_votes("BBB", 21)?)?;
    let [second, same] = [
        evaluator.set(&register.sheet()),
        evaluator.set(&register.sheet()),
    ];
    register.apply(set_votes("BBB", 21)?)?;
    Ok([both, first, second, same, evaluator.set(&register.sheet())])
}

// The changed blocks at each sheet, and the indices of the last one.
fn rebuild_partly<R: Abort>(
    rt: &R,
    register: &mut Register,
    evaluator: &mut Evaluator,
) -> Result<(), Refusal> {
    let blocks = changed_blocks(register, evaluator)?;
    let indices = evaluator.evaluate(Majority::Half);
    assert_eq!(rt; blocks, [2, 1, 1, 0, 0]);
    assert_eq!(rt;
        (indices.quota, indices.winning, indices.coalitions),
        (17, 2, 4)
    );
    assert!(rt;
        indices
            .rows
            .as_slice()
            .iter()
            .map(|row| row.swings)
            .eq([0, 2])
    );
    Ok(())
}

fn evaluate_partly<R: Abort>(
    rt: &R,
    alloc: Global,
    register: &mut Register,
) -> Result<(), Refusal> {
    let mut evaluator = Evaluator::new(alloc)?;
    rebuild_partly(rt, register, &mut evaluator)
}

// Catches an `Evaluator::new` that answers OutOfMemory though there is memory.
#[test]
fn partial_rebuild(rt: HostRuntime) -> Result<(), Fail> {
    let mut register = register(rt.alloc())?;
    evaluate_partly(&rt, rt.alloc(), &mut register)?;
    Ok(())
}

// Why a register doesn't start with AAA twice under this journal limit.
fn start_of_two(alloc: Global, limit: u32) -> Result<Option<Refusal>, Refusal> {
    let members = [member("AAA", 1)?, member("AAA", 2)?];
    Ok(Register::start(alloc, &members, limit).err())
}

// Catches two refusals with exchanged numbers in code and clauses: these are from the formats.
#[test]
fn constructors_refuse(rt: HostRuntime) -> Result<(), Fail> {
    let alloc = rt.alloc();
    assert_eq!(rt; start_of_two(alloc, 0)?, Some(Refusal::BadLimit));
    assert_eq!(rt; start_of_two(alloc, 5)?, Some(Refusal::DuplicateMember));
    for number in [0, 33] {
        assert_eq!(rt; ChairId::new(number).err(), Some(Refusal::BadChair));
    }
    assert_eq!(rt; MemberCode::new(b"AbC").err(), Some(Refusal::BadMember));
    assert_eq!(rt;
        Votes::new(MAX_VOTES + 1).err(),
        Some(Refusal::VotesTooLarge)
    );
    Ok(())
}

// The weight of chair 1 of a sheet with these words for it, for the total and for the front.
fn weight_of(chair: u64, total: u64, front: u64) -> Result<u64, Refusal> {
    let mut words = [0; SHEET_WORDS];
    words[0] = chair;
    words[TOTAL] = total;
    words[FRONT] = front;
    Ok(
        Sheet::from_words(&words)?
            .weight(ChairId::new(1)?)
            .unwrap_or(0),
    )
}

#[test]
fn sheet_from_words(rt: HostRuntime) -> Result<(), Fail> {
    let bad = Err(Refusal::BadSheet);
    assert_eq!(rt; weight_of(0, 0, 0), Ok(0));
    assert_eq!(rt; weight_of(11, 10, 0), Ok(10));
    assert_eq!(rt; weight_of(11, 9, 0), bad);
    assert_eq!(rt; weight_of(0, 0, u64::from(MAX_COMMANDS) + 1), bad);
    Ok(())
}

// The code of the member at index `index`.
fn code_at(register: &Register, index: usize) -> Option<MemberCode> {
    // The prover needs this line, since a row has a chair.
    let _nowhere: Option<ChairId> = None;
    Some(register.member_at(index)?.code)
}

// The codes of the first three members of a register.
fn codes_of(register: &Register) -> [Option<MemberCode>; 3] {
    [
        code_at(register, 0),
        code_at(register, 1),
        code_at(register, 2),
    ]
}

// The codes after the first of three members has withdrawn.
fn after_a_withdrawal(alloc: Global) -> Result<[Option<MemberCode>; 3], Refusal> {
    let members = [member("AAA", 50)?, member("BBB", 49)?, member("CCC", 1)?];
    let mut register = Register::start(alloc, &members, 5)?;
    register.apply(Command::Withdraw(members[0].0))?;
    Ok(codes_of(&register))
}

#[test]
fn members_move_up(rt: HostRuntime) -> Result<(), Fail> {
    let [second, third] = [member("BBB", 49)?.0, member("CCC", 1)?.0];
    assert!(rt; after_a_withdrawal(rt.alloc())? == [Some(second), Some(third), None]);
    Ok(())
}

// The refusals of a register with the most members and a full journal: to admit a member that it
// has, to admit another, and to withdraw one.
fn refusals_of(register: &mut Register) -> Result<[Option<Refusal>; 3], Refusal> {
    register.apply(Command::Open(ChairId::new(1)?))?;
    let (held, votes) = member("AAA", 1)?;
    let new = member("ZZZ", 1)?.0;
    Ok([
        register.apply(Command::Admit(held, votes)).err(),
        register.apply(Command::Admit(new, votes)).err(),
        register.apply(Command::Withdraw(held)).err(),
    ])
}

#[test]
fn members_at_the_limit(rt: HostRuntime) -> Result<(), Fail> {
    let members = all_members(rt.alloc())?;
    let mut register = Register::start(rt.alloc(), members.as_slice(), 1)?;
    let refusals = refusals_of(&mut register)?;
    let want = [
        Some(Refusal::MemberExists),
        Some(Refusal::TooManyMembers),
        Some(Refusal::JournalFull),
    ];
    assert_eq!(rt; refusals, want);
    Ok(())
}
