//! The steps of a reader over the shared words, each one load or one store of one word.
ghost use Rattle.std.specs.Prelude.{◌≡◌, ◌+◌, ◌<◌, [], take};
ghost use Rattle.std.specs.Option.{option_map};
ghost use Rattle.two_copy_steps.specs.declared.views.Stage.TheVariants.{AtRest, Arrived, Leaving};
ghost use Rattle.two_copy_steps.specs.Actions.{stage_with_words};
ghost use Rattle.two_copy_steps.specs.Stages.{sheet_read};
ghost use Rattle.board_share.specs.Steps.{IsStepOn};
ghost use Rattle.board_share.specs.Readers.{IsReader, Stepped, HasRead, reader_at};

use crate::readers::Reading;
use crate::rule::{Board, ReaderRule};
use crate::views::View;
use atomic_table::Seat;
use council_core::Sheet;
use two_copy_steps::{Access, COPY_WORDS, ReaderStage, SIDE, Stage, copy_word, pin};

// One step of the reader at r. The last step of a reading returns the reading.
pub(crate) fn advance(
    board: &Board,
    seat: &mut Seat<(), View>,
    r: u8,
    stage: &mut ReaderStage,
) -> Option<Reading>
    requires reader { IsReader board.now.shared.table_id seat.old.table_id seat.old.me
        (reader_at board.now.shared.table_id seat.old.me.0 r stage.old) }
    ensures seat { Stepped board.now.shared.table_id (reader_at board.now.shared.table_id seat.old.me.0 r stage.old)
        seat.new.table_id seat.new.me stage.new }
    ensures sheet { option_map (λ x. x.sheet) result ≡ sheet_read stage.old }
{
    let found = touch(board, seat, r, stage);
    let sheet = stage.advance(found)?;
    Some(Reading { sheet })
}

// Carries out the next step of the reader at r on its word, and returns the number left in the
// word.
fn touch(board: &Board, seat: &mut Seat<(), View>, r: u8, stage: &ReaderStage) -> u64
    requires reader { IsReader board.now.shared.table_id seat.old.table_id seat.old.me
        (reader_at board.now.shared.table_id seat.old.me.0 r stage.now) }
    ensures table { seat.new.table_id ≡ seat.old.table_id }
    ensures step { IsStepOn seat.old.me result seat.new.me }
{
    match stage.access(r) {
        Access::Load(index) => board.shared.load::<ReaderRule>(seat, index),
        Access::Store(index, word) => {
            board.shared.store::<ReaderRule>(seat, index, word);
            word
        }
    }
}

// A whole reading, from rest to rest: the same 37 steps, without testing the reader's stage before
// each of them.
pub(crate) fn read_all(board: &Board, seat: &mut Seat<(), View>, r: u8) -> Reading
    requires rest { IsReader board.now.shared.table_id seat.old.table_id seat.old.me
        (reader_at board.now.shared.table_id seat.old.me.0 r AtRest) }
    ensures read { HasRead board.now.shared.table_id (reader_at board.now.shared.table_id seat.old.me.0 r AtRest)
        seat.new.table_id seat.new.me result.sheet }
{
    let mut words = [0; COPY_WORDS];
    arrive(board, seat, r);
    let side = load_side(board, seat, r);
    for k in 0..COPY_WORDS {
        load_word(board, seat, r, side, k, &mut words);
    }
    leave(board, seat, r, side, &words);
    Reading {
        sheet: Sheet::from_words_unchecked(&words),
    }
}

// The first step: its pin becomes 1.
fn arrive(board: &Board, seat: &mut Seat<(), View>, r: u8)
    requires { IsReader board.now.shared.table_id seat.old.table_id seat.old.me
        (reader_at board.now.shared.table_id seat.old.me.0 r AtRest) }
    ensures { Stepped board.now.shared.table_id (reader_at board.now.shared.table_id seat.old.me.0 r AtRest)
        seat.new.table_id seat.new.me Arrived }
{
    board.shared.store::<ReaderRule>(seat, pin(r), 1);
}

// The second step: loads the side that is published.
fn load_side(board: &Board, seat: &mut Seat<(), View>, r: u8) -> u64
    requires { IsReader board.now.shared.table_id seat.old.table_id seat.old.me
        (reader_at board.now.shared.table_id seat.old.me.0 r Arrived) }
    ensures { Stepped board.now.shared.table_id (reader_at board.now.shared.table_id seat.old.me.0 r Arrived)
        seat.new.table_id seat.new.me (Stage.Reading result []) }
{
    board.shared.load::<ReaderRule>(seat, SIDE)
}

// One of the next 34 steps: loads word k of the copy that side names.
fn load_word(
    board: &Board,
    seat: &mut Seat<(), View>,
    r: u8,
    side: u64,
    k: usize,
    words: &mut [u64; COPY_WORDS],
)
    requires reader { IsReader board.now.shared.table_id seat.old.table_id seat.old.me
        (reader_at board.now.shared.table_id seat.old.me.0 r (Stage.Reading side (take k words.old))) }
    requires bound { k < COPY_WORDS }
    ensures { Stepped board.now.shared.table_id
        (reader_at board.now.shared.table_id seat.old.me.0 r (Stage.Reading side (take k words.old)))
        seat.new.table_id seat.new.me (stage_with_words side (take (k + 1) words.new)) }
{
    words[k] = board.shared.load::<ReaderRule>(seat, copy_word(side, k));
}

// The last step: its pin becomes 0.
fn leave(board: &Board, seat: &mut Seat<(), View>, r: u8, side: u64, words: &[u64; COPY_WORDS])
    requires { IsReader board.now.shared.table_id seat.old.table_id seat.old.me
        (reader_at board.now.shared.table_id seat.old.me.0 r (Leaving side words.now)) }
    ensures { Stepped board.now.shared.table_id
        (reader_at board.now.shared.table_id seat.old.me.0 r (Leaving side words.now))
        seat.new.table_id seat.new.me AtRest }
{
    board.shared.store::<ReaderRule>(seat, pin(r), 0);
}
