//! Starts a board.
ghost use Rattle.std.specs.Prelude.{◌≡◌, ◌-◌, ◌≤◌, IfOk, IfErr, OnOk};
ghost use Rattle.std.specs.Arc.{arc_value};
ghost use Rattle.council_core.specs.declared.refusals.Refusal.TheVariants.{OutOfMemory, BadLimit};
ghost use Rattle.two_copy_steps.specs.Machines.{IsFew};
ghost use Rattle.board_share.specs.Openings.{IsSplitting, share_start, new_readers, new_writer};

use crate::readers::Reader;
use crate::rule::{Board, SplitOff};
use crate::views::{ShareStart, View};
use crate::writers::Writer;
use atomic_table::{Seat, Table};
use council_core::{Refusal, Register};
use std::alloc::{AllocError, Global};
use std::sync::Arc;
use two_copy_steps::READERS;

/// Starts a board over this register and returns its writer and its readers, numbered from 1. The
/// sheet of the register is published, and no reader has read.
///
/// ```rust
/// let register = Register::start(alloc, members, MAX_COMMANDS)?;
/// let (mut writer, readers) = match start(alloc, register, 2) {
///     Ok(board) => board,
///     Err((_register, why)) => return Err(why),
/// };
/// ```
///
/// # Errors
///
/// Both errors come with the register, unchanged.
///
/// - `BadLimit`: `readers` is not from 1 to `READERS`.
/// - `OutOfMemory`, for a number in range.
pub fn start(
    alloc: Global,
    register: Register,
    readers: u8,
) -> Result<(Writer, Vec<Reader>), (Register, Refusal)>
    ensures in_range { OnOk result (IsFew readers) }
    ensures writer { IfOk result (λ b. b.0 ≡ new_writer b.0.table register readers) }
    ensures readers { IfOk result (λ b. b.1.items ≡ new_readers b.0.table (share_start register readers) readers) }
    ensures returned { IfErr result (λ e. e.0 ≡ register) }
    ensures limit { IfErr result (λ e. (IsFew readers → ⊥) → e.1 ≡ BadLimit) }
    ensures memory { IfErr result (λ e. IsFew readers → e.1 ≡ OutOfMemory) }
{
    if readers == 0 || READERS < readers as usize {
        return Err((register, Refusal::BadLimit));
    }
    let origin = ShareStart { register, readers };
    match seat_all(alloc, &origin) {
        Ok((board, seat, all)) => {
            let ShareStart { register, .. } = origin;
            Ok((Writer::new(board, seat, register, readers), all))
        }
        Err(_) => {
            let ShareStart { register, .. } = origin;
            Err((register, Refusal::OutOfMemory))
        }
    }
}

// The shared words, the writer's seat and the readers.
fn seat_all(
    alloc: Global,
    origin: &ShareStart,
) -> Result<(Arc<Board>, Seat<(), View>, Vec<Reader>), AllocError>
    requires bound { origin.now.readers ≤ READERS }
    ensures writer { IfOk result
        (λ b. IsSplitting origin.now (arc_value b.0).shared.table_id b.1.table_id b.1.me origin.now.readers 0) }
    ensures readers { IfOk result
        (λ b. b.2.items ≡ new_readers (arc_value b.0).shared.table_id origin.now origin.now.readers) }
{
    let (board, mut seat) = build_board(alloc, origin)?;
    let readers = seat_readers(alloc, &board, &mut seat, origin)?;
    Ok((board, seat, readers))
}

// The shared words, and one seat for the writer and all readers.
fn build_board(
    alloc: Global,
    origin: &ShareStart,
) -> Result<(Arc<Board>, Seat<(), View>), AllocError>
    requires bound { origin.now.readers ≤ READERS }
    ensures laid { IfOk result
        (λ b. IsSplitting origin.now (arc_value b.0).shared.table_id b.1.table_id b.1.me 0 origin.now.readers) }
{
    let sheet = origin.register.sheet();
    let words = two_copy_steps::Table::start(&sheet.words(), origin.readers);
    let (table, seat) = Table::of_words(alloc, words.as_slice(), origin)?;
    Ok((Arc::new(alloc, table)?, seat))
}

// Splits off a separate seat for each reader.
fn seat_readers(
    alloc: Global,
    board: &Arc<Board>,
    seat: &mut Seat<(), View>,
    origin: &ShareStart,
) -> Result<Vec<Reader>, AllocError>
    requires bound { origin.now.readers ≤ READERS }
    requires whole { IsSplitting origin.now (arc_value board.now).shared.table_id seat.old.table_id seat.old.me 0
        origin.now.readers }
    ensures writer { OnOk result
        (IsSplitting origin.now (arc_value board.now).shared.table_id seat.new.table_id seat.new.me origin.now.readers
        0) }
    ensures readers { IfOk result
        (λ all. all.items ≡ new_readers (arc_value board.now).shared.table_id origin.now origin.now.readers) }
{
    let mut all = Vec::with_capacity(alloc, origin.readers as usize)?;
    for r in 0..origin.readers {
        let mine = board.shared.split_seat::<SplitOff>(seat);
        all.push_reserved(Reader::new(Arc::try_clone(board)?, mine, r));
    }
    Ok(all)
}
