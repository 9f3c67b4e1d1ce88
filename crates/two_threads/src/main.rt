//! An example program: a writer and a reader of one board, each in a separate thread, and an audit of the readings.
#![tactic(auto)]

mod sessions;
mod work;

use anyhow::Result;
use council_core::{ChairId, Command, MemberCode, Refusal, Votes};
use sessions::{Session, hold};
use std::alloc::Global;
use std::io;
use std::sync::Wait;
use std::thread::Threads;

// Three members and their votes.
fn members() -> Result<[(MemberCode, Votes); 3], Refusal> {
    Ok([
        (MemberCode::new(b"AAA")?, Votes::new(50)?),
        (MemberCode::new(b"BBB")?, Votes::new(49)?),
        (MemberCode::new(b"CCC")?, Votes::new(1)?),
    ])
}

// Opens a chair for each member and moves the member there.
fn commands(members: &[(MemberCode, Votes); 3]) -> Result<[Command; 6], Refusal> {
    let [(a, _), (b, _), (c, _)] = *members;
    let (one, two, three) = (ChairId::new(1)?, ChairId::new(2)?, ChairId::new(3)?);
    Ok([
        Command::Open(one),
        Command::Open(two),
        Command::Open(three),
        Command::Move(a, Some(one)),
        Command::Move(b, Some(two)),
        Command::Move(c, Some(three)),
    ])
}

// Prints what doesn't depend on the threads' schedule: the numbers of publications and readings.
fn report(rt: &(impl Print + Alloc), session: &Session) -> io::Result<()> {
    println!(rt; "published {} times", session.cuts.len())?;
    println!(rt; "{} readings", session.sheets.len())?;
    println!(rt; "audit: ok")
}

// Holds a session and returns its result, or the error that ended it early.
fn held<R: Threads + Wait + Sync>(rt: &R, alloc: Global) -> Result<Session> {
    let members = members()?;
    let commands = commands(&members)?;
    hold(rt, alloc, &members, &commands)
}

fn main(rt: HostRuntime) -> Result<()> {
    let session = held(&rt, rt.alloc())?;
    report(&rt, &session)?;
    Ok(())
}
