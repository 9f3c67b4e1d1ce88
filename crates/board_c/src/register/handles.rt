//! What a C program holds of a register: a pointer and whether anything is there.
ghost use Rattle.std.specs.Prelude.{◌≡◌};
ghost use Rattle.council_core.specs.Sequential.{Sequential};
ghost use Rattle.board_c.specs.Handles.{keeps};

use crate::register::loose::Loose;
use council_core::PublishedRegister;
use std::alloc::Global;
use std::marker::Model;

/// The state of a handle with a register.
pub const LIVE: u64 = 1;

/// A handle, as `struct board_register` in `board.h`. It has a register if its state is `LIVE`.
#[repr(C)]
pub struct BoardRegister {
    // The register's box, if the state is `LIVE`.
    pub(crate) at: *mut u8,
    /// `LIVE`, or any other number for a handle without a register.
    pub state: u64,
    /// The register, with the number of its commands that are published.
    pub ghost register: { Sequential },
}

impl Model for BoardRegister {
    ghost also_owns = { λ h. keeps h.at h.state h.register };
}

// SAFETY: proved: what a handle owns, a box of a register, may go to another thread.
unsafe impl Send for BoardRegister {}

impl BoardRegister {
    // The state. The handle is borrowed mutably, as by every call of the library.
    pub(crate) fn state(&mut self) -> u64
        ensures { (result ≡ self.old.state) × (self.new ≡ self.old) }
    {
        self.state
    }

    // Takes the register out.
    pub(crate) fn take(&mut self, alloc: Global) -> Loose<PublishedRegister, Global>
        requires live { self.old.state ≡ LIVE }
        ensures { (result.value ≡ self.old.register) × (self.new.state ≡ 0) }
    {
        let at = self.at as *mut PublishedRegister;
        self.state = 0;
        Loose { at, alloc }
    }

    // Puts a register in. One that was there would be lost: `replace` frees it first.
    pub(crate) fn hold(&mut self, register: Loose<PublishedRegister, Global>)
        ensures { (self.new.register ≡ register.value) × (self.new.state ≡ LIVE) }
    {
        let Loose { at, alloc: _ } = register;
        self.at = at as *mut u8;
        self.state = LIVE;
    }
}
