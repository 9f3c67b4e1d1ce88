//! A handle's register as a box.
ghost use Rattle.std.specs.Prelude.{◌≡◌, Some, None, MatchOption};
ghost use Rattle.board_c.specs.Calls.{register_in};

use crate::register::handles::{BoardRegister, LIVE};
use crate::register::loose::Loose;
use council_core::PublishedRegister;
use std::alloc::Global;

impl BoardRegister {
    // Takes the register out, if there is one.
    pub(crate) fn remove(&mut self, alloc: Global) -> Option<Box<PublishedRegister>>
        ensures { MatchOption result ((register_in self.old ≡ None) × (self.new ≡ self.old))
            (λ b. (register_in self.old ≡ Some b.value) × (register_in self.new ≡ None)) }
    {
        if self.state() != LIVE {
            return None;
        }
        let register = self.take(alloc);
        Some(register.into_box())
    }

    // Puts a register in, in place of the one that was there, which is freed.
    pub(crate) fn replace(&mut self, alloc: Global, register: Box<PublishedRegister>)
        ensures { register_in self.new ≡ Some register.value }
    {
        let _old = self.remove(alloc);
        self.hold(Loose::of(register));
    }
}
