//! Laws of the definitions of an input.
ghost use Rattle.recording_io.specs.Laws.{AreAll, GivenIsInput};

/// States two laws of `IsInput`: the bytes that a reader returned are a possible input, and they
/// are the only possible input of a reader that has reported its end and whose contents aren't
/// known.
pub fn input_laws()
    ensures given { GivenIsInput }
    ensures all { AreAll }
{}
