//! The laws of counting over the coalitions of a board.
ghost use Rattle.swing_walk.specs.Laws.{SwingLaw, CoalitionLaw, PairLaw, CountLaw, BoundLaw, TwoHalvesLaw};

/// `eta + omega = 2 * omega_with` for each chair, for any rule under which a superset of a winning
/// set wins (Felsenthal and Machover 1998).
pub fn swing_law()
    ensures swings { SwingLaw }
{}

/// The pairs of two halves are the coalitions of their board, each once, so the counts of the pairs
/// are omega and omega with each chair.
pub fn pair_law()
    ensures coalitions { CoalitionLaw }
    ensures counts { PairLaw }
{}

/// For the counts of a board, `swings` returns the number of swings of each chair.
pub fn count_law()
    ensures swings { CountLaw }
    ensures bound { BoundLaw }
{}

/// The counts of two halves meet the requirements of `swings`, and its results are the swings of
/// each chair by the definition.
pub fn two_halves_law()
    ensures halves { TwoHalvesLaw }
{}
