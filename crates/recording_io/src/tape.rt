//! The ghost record of a stream: the bytes that passed, and the calls, at no cost at run time.
ghost use Rattle.std.specs.Prelude.{◌≡◌, ℕ, Bool, false, List, ◌++◌, [], take};
ghost use Rattle.std.specs.Borrow.{ftrue};
ghost use Rattle.recording_io.specs.Tapes.{Calls, after_call, is_last, no_calls};

use std::marker::Model;

// The bytes that have passed since the tape was made, whether the last call moved no byte although
// there was room, and the calls.
#[derive(Drop)]
pub(crate) struct Tape {
    ghost bytes: { List ℕ },
    ghost ended: { Bool },
    ghost calls: { Calls },
}

impl Model for Tape {
    ghost also_owns = { λ _. ftrue };
}

// A tape takes no room.
const _: () = prove!(size_of::<Tape>() == 0);

impl Tape {
    // An empty tape.
    pub(crate) fn new() -> Tape
        ensures { (result.bytes ≡ []) × (result.ended ≡ false) × (result.calls ≡ no_calls) }
    {
        Tape {}
    }

    // Records one call, which moved the first `_count` bytes of `_room`, or was interrupted.
    #[inline(always)]
    pub(crate) fn note(&mut self, _room: &[u8], _count: usize, _interrupted: bool)
        ensures { (self.new.bytes ≡ self.old.bytes ++ take _count _room.now)
            × (self.new.ended ≡ is_last _room.now _count)
            × (self.new.calls ≡ after_call self.old.calls _count _interrupted) }
    {}
}
