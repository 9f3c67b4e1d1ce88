//! The register of a handle, lent.
ghost use Rattle.std.specs.Prelude.{◌≡◌};
ghost use types.Logic.{sem};
ghost use Rattle.board_c.specs.Lending.{LendsRegister};
ghost use Rattle.board_c.specs.declared.register.handles.TheConstants.{LIVE};

use crate::register::handles::BoardRegister;
use council_core::PublishedRegister;

// The register of a handle that has one.
pub(crate) fn register_of(handle: &mut BoardRegister) -> &mut PublishedRegister
    requires live { handle.old.state ≡ LIVE }
    ensures* writes_back { sem 𝓛 (LendsRegister handle.entry result) }
    ensures value { result.now ≡ handle.old.register }
{
    // SAFETY: proved, from `keeps`: in this state the handle owns the box at `at`.
    unsafe { &mut *(handle.at as *mut PublishedRegister) }
}
