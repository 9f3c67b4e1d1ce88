//! Laws of the machine, of its start, its states, its events and its runs, stated as contracts of
//! functions with empty bodies.
ghost use Rattle.two_copy_steps.specs.Laws.{StartLaw, ReaderLaw, WriterLaw, BeginLaw, StateRecordsLaw, StateUnderLaw};
ghost use Rattle.two_copy_steps.specs.Laws.{StateKnownLaw, WriterTransitionLaw, ReaderTransitionLaw};
ghost use Rattle.two_copy_steps.specs.Laws.{BeginTransitionLaw, IdleTransitionLaw};
ghost use Rattle.two_copy_steps.specs.Laws.{SubmitTransitionLaw, BusyLaw, StayLaw, AtOnceLaw, StepCountLaw, GrowthLaw};
ghost use Rattle.two_copy_steps.specs.Laws.{EventLaw};
ghost use Rattle.two_copy_steps.specs.Laws.{LedgerLaw, RangeLaw, RecordsLaw, UnderLaw, RepliesLaw, FreshLaw, OutputsLaw};
ghost use Rattle.two_copy_steps.specs.Laws.{NeverOlderLaw, EffectsLaw, NotesLaw, AfterLaw};

/// The machine meets its invariant at its start.
pub fn start_law()
    ensures lawful { StartLaw }
{}

/// Each of the seven kinds of step, and the beginning of a publication, keeps the invariant of
/// words and views.
pub fn step_laws()
    ensures reader { ReaderLaw }
    ensures writer { WriterLaw }
    ensures begin { BeginLaw }
{}

/// In every state that meets the invariant, the records are legal, no reader holds the copy into
/// which the writer's next step stores a word, and each reader's words are those of a sheet.
pub fn state_laws()
    ensures records { StateRecordsLaw }
    ensures apart { StateUnderLaw }
    ensures known { StateKnownLaw }
{}

/// The machine's transition at an event is one step of words and views: of the writer, of a reader,
/// or the beginning of a publication. No other event changes them.
pub fn transition_laws()
    ensures writer { WriterTransitionLaw }
    ensures reader { ReaderTransitionLaw }
    ensures begin { BeginTransitionLaw }
    ensures idle { IdleTransitionLaw }
    ensures submit { SubmitTransitionLaw }
{}

/// An abandoned publication names the first reader that is not quiescent, whose pin is 1. Quiescent
/// readers stay quiescent until side is stored. If all readers are quiescent, a publication that
/// begins fills at once.
pub fn publication_laws()
    ensures busy { BusyLaw }
    ensures stay { StayLaw }
    ensures at_once { AtOnceLaw }
{}

/// A reader's stage has a number below that of the steps of a reading, each step advances it by
/// one, and the record grows only at the load of the last word.
pub fn reading_laws()
    ensures count { StepCountLaw }
    ensures growth { GrowthLaw }
{}

/// Each event keeps the machine's invariant, with its cuts and records, and keeps its journal
/// legal. If votes are in range, it keeps them in range and the journal publishable. So the
/// premises for an event hold again after it, and the next event may follow.
pub fn event_law()
    ensures lawful { EventLaw }
    ensures journal { LedgerLaw }
    ensures in_range { RangeLaw }
{}

/// Over every list of events: the records are legal, no reader holds the copy into which the
/// writer's next step stores a word, every output that answers a call equals the sequential
/// register's reply at the call's linearization point, and a reading that begins after a
/// publication is no older than that publication.
pub fn run_laws()
    ensures records { RecordsLaw }
    ensures apart { UnderLaw }
    ensures replies { RepliesLaw }
    ensures fresh { FreshLaw }
{}

/// Over every list of events: a reader's record is the sheets in its outputs, in order, followed by
/// the words of the reading that it is about to leave; and no output of a reader has an older sheet
/// than one before it.
pub fn record_laws()
    ensures reported { OutputsLaw }
    ensures never_older { NeverOlderLaw }
{}

/// The outputs of events are compared with one run of the sequential register: its replies to the
/// list of calls that the events represent, starting from the given register.
pub fn effects_law()
    ensures run { EffectsLaw }
{}

/// For one list of events appended to another: the second list continues where the first ended.
pub fn append_laws()
    ensures notes { NotesLaw }
    ensures machine { AfterLaw }
{}
