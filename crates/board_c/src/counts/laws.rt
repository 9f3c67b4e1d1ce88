//! Laws about the definitions.
ghost use Rattle.board_c.specs.Laws.{MembersLaw, RollLaw};

/// The words computed from members are those that the register's own definitions give for each roll
/// with the same standings and the same open chairs, and such a roll exists.
pub fn members_law()
    ensures words { MembersLaw }
    ensures roll { RollLaw }
{}
