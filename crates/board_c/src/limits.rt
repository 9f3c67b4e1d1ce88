//! The limits of a run that a caller gives.
ghost use Rattle.std.specs.Prelude.{◌≡◌, ℕ, List, true};
ghost use Rattle.board_text.specs.Text.{in_range, run_limits};
ghost use Rattle.board_c.specs.Kinds.{run_as};
ghost use Rattle.board_c.specs.declared.runs.kinds.Kind.{Kind};

use board_text::Limits;

// The limits with these numbers. A number of readers above 255 becomes 0, which is out of range
// too.
pub(crate) fn limits_of(readers: u32, journal: u32) -> Limits
    ensures range { in_range result ≡ in_range (run_limits readers journal) }
    ensures given { in_range result ≡ true → result ≡ run_limits readers journal }
    ensures same { (kind : Kind) (bytes : List ℕ) →
        run_as kind result bytes ≡ run_as kind (run_limits readers journal) bytes }
{
    let readers = if readers <= u32::from(u8::MAX) {
        readers as u8
    } else {
        0
    };
    Limits { readers, journal }
}
