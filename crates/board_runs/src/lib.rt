//! Carries out a script record by record on one thread: on the register (`replay`) or on the
//! two-copy machine (`trace`).
#![tactic(auto)]

mod desks;
mod laws;
mod notes;
mod replaying;
mod runs;
mod schedules;
mod tracing;

pub use laws::schedule_law;
pub use replaying::replay;
pub use schedules::MAX_STEPS;
pub use tracing::trace;

// The limits allow as many readers as the machine has at most.
const _: () = prove!(board_text::READERS == two_copy_steps::READERS);
