//! The view of each actor: what it knows. The machine stores the writer's phase. No value of the
//! other types is made: they are used in contracts and rules only.
use council_core::Command;
use std::collections::LinkedList;

/// How far a reader is in its reading: a `ReaderStage` as contracts see it.
pub enum Stage {
    /// The reader's pin is 0.
    AtRest,
    /// The reader's pin is 1, and it has not loaded side yet.
    Arrived,
    /// The side that the reader has loaded, and the words loaded so far.
    Reading(u64, LinkedList<u64>),
    /// The side that the reader has loaded, and all words of that copy.
    Leaving(u64, LinkedList<u64>),
}

/// A reader's view.
pub struct ReaderView {
    /// The stage of the reader.
    pub stage: Stage,
    /// The sheets that the reader has read, in order, each as its words.
    pub readings: LinkedList<LinkedList<u64>>,
}

/// How far the writer is in its publication.
#[derive(Clone, Copy, Debug, PartialEq, Eq, Hash)]
pub enum Phase {
    /// No publication is in progress.
    Idle,
    /// The writer loads the pins of the readers that are not yet quiescent.
    Seeing,
    /// The index of the next word to store in the copy that is not published.
    Filling(u64),
    /// All words are stored, and the store of side is next.
    Swapping,
}

/// The writer's view, except its cuts.
pub struct Writing {
    /// The side that the writer last stored.
    pub side: u64,
    /// The published commands.
    pub published: LinkedList<Command>,
    /// The staged commands: those that the last publication began to publish.
    pub staged: LinkedList<Command>,
    /// The phase of the writer.
    pub phase: Phase,
    /// Whether each reader is quiescent: its pin was found at 0 since side was last stored, or
    /// nothing has been published yet.
    pub seen_out: LinkedList<bool>,
}

/// The writer's view.
pub struct WriterView {
    /// The part of the view that the writer's steps read and change.
    pub state: Writing,
    /// The lengths of the published lists, in order.
    pub cuts: LinkedList<u64>,
}
