//! What a call answers of what was found.
ghost use Rattle.std.specs.Prelude.{◌≡◌, ◌↔◌, IfOk, IfErr, IsOk};
ghost use Rattle.council_core.specs.Refusals.{code_of};

use crate::DONE;
use council_core::Refusal;

// Writes what was found and returns `DONE`, or leaves the place and returns the number of the
// refusal.
pub(crate) fn answer<T: Copy>(found: Result<T, Refusal>, place: &mut T) -> u8
    ensures done { (result ≡ DONE) ↔ IsOk found }
    ensures written { IfOk found (λ value. place.new ≡ value) }
    ensures refused { IfErr found (λ why. result ≡ code_of why) }
    ensures untouched { IfErr found (λ _. place.new ≡ place.old) }
{
    match found {
        Ok(new) => {
            *place = new;
            DONE
        }
        Err(why) => why.code(),
    }
}
