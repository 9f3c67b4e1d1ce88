//! A stress of the running board and of `serve`: one round of calls and pauses drawn from a seed,
//! the program's one argument.
#![tactic(auto)]

mod reading;
mod serving;
mod sharing;
mod turns;

use anyhow::{Context, Result};
use reading::TURNS;
use serving::serve_drawn;
use sharing::share_drawn;
use std::env;

fn seed_of(rt: &HostRuntime) -> Result<u64> {
    let words: Vec<String> = env::args(rt)?.collect(rt.alloc())?;
    let word = words.get(1).context("there is no seed")?;
    word.parse().context("the seed is no number")
}

fn main(rt: HostRuntime) -> Result<()> {
    let seed = seed_of(&rt)?;
    share_drawn(&rt, rt.alloc(), seed)?;
    serve_drawn(&rt, rt.alloc(), seed)?;
    println!(rt;
        "seed {seed}: {TURNS} publications, 4 readers with {TURNS} readings each, audited"
    )?;
    Ok(())
}
