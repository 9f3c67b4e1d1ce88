//! Keeps threads at full speed at one pace.
use std::sync::atomic::{AtomicU64, Ordering};
use std::thread;

/// How far each of five threads is, so that threads at full speed keep pace.
#[derive(Drop)]
pub(crate) struct Turns {
    turns: [AtomicU64; 5],
}

impl Turns {
    /// Five threads at turn 0.
    pub(crate) fn new() -> Turns {
        Turns {
            turns: [0u64; 5].map(AtomicU64::new),
        }
    }

    /// Thread `place`, counted from 0, comes to this turn. It waits while another thread is more
    /// than `ahead` turns behind.
    pub(crate) fn come_to(&self, place: usize, turn: u64, ahead: u64) {
        if let Some(mine) = self.turns.get(place) {
            mine.store(turn, Ordering::SeqCst);
        }
        let least = turn.saturating_sub(ahead);
        for _ in 0..u64::MAX {
            let mut turns = self.turns.iter();
            if turns.all(|other| other.load(Ordering::SeqCst) >= least) {
                return;
            }
            thread::yield_now();
        }
    }

    /// Thread `place` ends: no thread waits for it any more.
    pub(crate) fn end(&self, place: usize) {
        self.come_to(place, u64::MAX, u64::MAX);
    }
}
