//! The readers' stages, and a step of one of them.
ghost use Rattle.std.specs.Prelude.{◌≡◌, List, suc, ◌<◌, ◌≤◌, length, replicate};
ghost use Rattle.std.specs.Prelude.{slice_index, slice_index_or, slice_set};
ghost use Rattle.two_copy_steps.specs.declared.views.Stage.{Stage};
ghost use Rattle.two_copy_steps.specs.declared.views.Stage.TheVariants.{AtRest};
ghost use Rattle.two_copy_steps.specs.declared.table.TheConstants.{READERS};
ghost use Rattle.two_copy_steps.specs.Actions.{pin, stage_action};
ghost use Rattle.two_copy_steps.specs.Stages.{IsReadable};
ghost use Rattle.two_copy_steps.specs.Transitions.{stage_note};

use crate::events::Note;
use crate::stages::ReaderStage;
use crate::table::{READERS, Table};
use arrayvec::ArrayVec;
use std::marker::Model;

// The stages of the readers, at most `READERS`.
#[derive(Debug, Drop)]
pub(crate) struct ReaderStages {
    stages: ArrayVec<ReaderStage, READERS>,
}

impl Model for ReaderStages {
    ghost Value = { List Stage };

    ghost view = { λ s. s.stages.items };
}

impl ReaderStages {
    // All readers are at rest.
    pub(crate) fn start(readers: u8) -> ReaderStages
        requires { readers ≤ READERS }
        ensures { result ≡ replicate readers AtRest }
    {
        let mut stages = ArrayVec::new();
        for _reader in 0..readers {
            stages.push(ReaderStage::new());
        }
        ReaderStages { stages }
    }

    // The number of readers.
    pub(crate) fn len(&self) -> u8
        ensures { result ≡ length self.now }
    {
        self.stages.len() as u8
    }

    // Takes one step of the reader at index `r`, and returns its output.
    pub(crate) fn advance(&mut self, table: &mut Table, r: u8) -> Note
        requires here { r < length self.old }
        requires within { pin r < length table.old }
        requires readable { IsReadable (slice_index_or self.old r AtRest) }
        ensures words { let d = stage_action r (slice_index_or self.old r AtRest)
            in table.new ≡ slice_set table.old d.word (d.becomes (slice_index table.old d.word)) }
        ensures stages { let d = stage_action r (slice_index_or self.old r AtRest)
            in self.new ≡ slice_set self.old r (d.after (slice_index table.old d.word)) }
        ensures note { result ≡ stage_note (suc r) (slice_index_or self.old r AtRest) }
    {
        advance(table, r, &mut self.stages.as_mut_slice()[r as usize])
    }
}

// Takes one step of the reader at index `r`, which is at this stage, and returns its output.
fn advance(table: &mut Table, r: u8, stage: &mut ReaderStage) -> Note
    requires within { pin r < length table.old }
    requires bound { r < READERS }
    requires readable { IsReadable stage.old }
    ensures words { let d = stage_action r stage.old
        in table.new ≡ slice_set table.old d.word (d.becomes (slice_index table.old d.word)) }
    ensures stage { let d = stage_action r stage.old in stage.new ≡ d.after (slice_index table.old d.word) }
    ensures note { result ≡ stage_note (suc r) stage.old }
{
    let found = table.touch(stage.access(r));
    match stage.advance(found) {
        Some(sheet) => Note::Read(r + 1, sheet),
        None => Note::Moved,
    }
}
