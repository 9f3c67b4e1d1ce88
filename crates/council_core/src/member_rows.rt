//! The members of a register, one after another.
ghost use Rattle.std.specs.Iterator.{YieldsFirst, item_count};

use crate::commands::MemberRow;
use crate::registers::Register;
use std::marker::Model;

/// The members of a register in the order of entry: the iterator that `Register::member_rows`
/// returns. In contracts, it is the list of the rows that are left.
#[derive(Debug, Drop)]
pub struct MemberRows<'a> {
    pub(crate) register: &'a Register,
    pub(crate) index: usize,
}

impl<'a> Model for MemberRows<'a> {
    ghost use Rattle.std.specs.Prelude.{◌≤◌, List, length};
    ghost use Rattle.council_core.specs.declared.commands.MemberRow.{MemberRow};
    ghost use Rattle.council_core.specs.Ledgers.{roll_of};
    ghost use Rattle.council_core.specs.Members.{rows_from};

    ghost Value = { List MemberRow };

    ghost view = { λ it. rows_from it.index (roll_of it.register.now) };

    ghost invariant = { λ it. it.index ≤ length (roll_of it.register.now).members };
}

impl<'a> Iterator for MemberRows<'a> {
    type Item = MemberRow;

    ghost next_gives = { YieldsFirst (λ rows. rows) };

    ghost remaining = { item_count (λ rows. rows) };

    /// The next row.
    fn next(&mut self) -> Option<MemberRow> {
        let index = self.index;
        if index == self.register.members() {
            return None;
        }
        self.index = index + 1;
        self.register.member_at(index)
    }
}
