//! Laws about the definitions, stated as contracts of functions with empty bodies. Proofs in other
//! crates use them, and a reader can check by them that the definitions mean what they should.
ghost use Rattle.council_core.specs.Laws.{CastLaw, CoalitionsLaw, EachOnceLaw, FrontLaw, OpeningLaw, PrefixLaw};
ghost use Rattle.council_core.specs.Laws.{SheetLaw, WeightsLaw};

/// The cast, counted member by member over the open chairs, is the sum of the weights in the sheet,
/// which are the weights of its open chairs.
pub fn cast_law()
    ensures of_roll { CastLaw }
    ensures of_chairs { WeightsLaw }
{}

/// n chairs have 2^n coalitions, and each set of chosen chairs is exactly one of them.
pub fn coalitions_law()
    ensures number { CoalitionsLaw }
    ensures each_once { EachOnceLaw }
{}

/// Appending a command leaves the sheet of each shorter prefix of the list unchanged, and the front
/// of the sheet of the first f commands is f.
pub fn prefix_law()
    ensures kept { PrefixLaw }
    ensures front { FrontLaw }
{}

/// For members whose votes are in range, the verdict of `Register::start` is Ok exactly if the
/// limit is from 1 to 1,000,000, there are at most 256 members, and no two have the same code.
pub fn opening_law()
    ensures starts { OpeningLaw }
{}

/// The 34 numbers of a legal list of commands, over members with which a register can start, are
/// words that `Sheet::from_words` accepts.
pub fn sheet_law()
    ensures in_range { SheetLaw }
{}
