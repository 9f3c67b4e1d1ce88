//! Left-right publication as a state machine: one writer publishes sheets to readers through two
//! copies of a sheet, with one load or store of one word at each step.
#![tactic(auto)]

mod events;
mod flags;
mod laws;
mod machine;
mod readers;
mod runs;
mod stages;
mod table;
mod views;

pub use events::{Event, Note};
pub use flags::Flags;
pub use laws::{
    append_laws, effects_law, event_law, publication_laws, reading_laws, record_laws, run_laws,
    start_law, state_laws, step_laws, transition_laws,
};
pub use machine::Machine;
pub use runs::{Notes, RunFault, RunLog, run};
pub use stages::{Access, ReaderStage};
pub use table::{COPY_WORDS, READERS, SIDE, Table, copy_word, pin};
pub use views::{Phase, ReaderView, Stage, WriterView, Writing};
