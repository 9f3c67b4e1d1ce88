//! Writes to the journal and to the members, with this crate's refusals.
ghost use Rattle.std.specs.Prelude.{◌≡◌, ◌<◌, ◌≤◌, ◌+◌, ◌++◌, ◌∷◌, [], OnOk, IsOkUnless, IfOk, None};
ghost use Rattle.std.specs.Prelude.{false, length, map, remove, take, slice_get, Some, ◌-◌};
ghost use Rattle.std.specs.List.{IsDistinct};
ghost use Rattle.std.specs.Map.{keys_of};
ghost use Rattle.std.specs.Vec.{vec_len, vec_capacity};
ghost use Rattle.indexmap.specs.IndexMap.{set_value_at, spare};
ghost use Rattle.council_core.specs.declared.refusals.Refusal.TheVariants.{OutOfMemory};
ghost use Rattle.council_core.specs.Ledgers.{has_duplicate};
ghost use Rattle.council_core.specs.Rolls.{standing_among, same_code, new_entry};

use crate::commands::{Command, Standing};
use crate::limits::MAX_MEMBERS;
use crate::refusals::Refusal;
use crate::values::{ChairId, MemberCode, Votes};
use indexmap::IndexMap;
use std::alloc::Global;

// Reserves room in the journal for one more command.
pub(crate) fn make_room(journal: &mut Vec<Command>) -> Result<(), Refusal>
    ensures same { journal.new.items ≡ journal.old.items }
    ensures room { OnOk result (vec_len journal.new < vec_capacity journal.new) }
    ensures memory { IsOkUnless result OutOfMemory }
{
    Ok(journal.reserve(1)?)
}

// Appends a command to the journal, in the reserved room.
pub(crate) fn append(journal: &mut Vec<Command>, command: &Command)
    requires { vec_len journal.old < vec_capacity journal.old }
    ensures { journal.new.items ≡ journal.old.items ++ command.now ∷ [] }
{
    // The prover needs this line, since a command has a chair.
    let _nowhere: Option<ChairId> = None;
    journal.push_reserved(*command);
}

// A copy of the members.
pub(crate) fn copied(
    alloc: Global,
    members: &[(MemberCode, Votes)],
) -> Result<Vec<(MemberCode, Votes)>, Refusal>
    ensures ok { IfOk result (λ v. v.items ≡ members.now) }
    ensures memory { IsOkUnless result OutOfMemory }
{
    Ok(Vec::from_slice(alloc, members)?)
}

// No members, with room for `MAX_MEMBERS`.
pub(crate) fn empty(alloc: Global) -> Result<IndexMap<MemberCode, Standing>, Refusal>
    ensures empty { IfOk result (λ m. m.entries ≡ []) }
    ensures room { IfOk result (λ m. MAX_MEMBERS ≤ length m.entries + spare m) }
    ensures memory { IsOkUnless result OutOfMemory }
{
    Ok(IndexMap::with_capacity(alloc, MAX_MEMBERS)?)
}

// Replaces the standing of the member at this index.
pub(crate) fn put(members: &mut IndexMap<MemberCode, Standing>, index: usize, new: Standing)
    requires { index < length members.old.entries }
    ensures entries { members.new.entries ≡ set_value_at members.old.entries index new }
    ensures room { spare members.new ≡ spare members.old }
{
    match members.get_index_mut(index) {
        Some(standing) => *standing = new,
        None => unreachable!(),
    }
}

// Adds a member with a new code, last, in a free place.
fn add(members: &mut IndexMap<MemberCode, Standing>, code: MemberCode, standing: Standing)
    requires new { standing_among code members.old.entries ≡ None }
    requires free { 0 < spare members.old }
    ensures entries { members.new.entries ≡ members.old.entries ++ (code, standing) ∷ [] }
    ensures room { spare members.old ≤ spare members.new + 1 }
{
    // The prover needs this line, since a standing has a chair.
    let _nowhere: Option<ChairId> = None;
    match members.insert(code, standing) {
        Ok(_) => {}
        Err(_) => unreachable!(),
    }
}

// Adds a new member with its votes, last, in a free place.
pub(crate) fn enter_new(
    members: &mut IndexMap<MemberCode, Standing>,
    code: MemberCode,
    votes: Votes,
)
    requires new { standing_among code members.old.entries ≡ None }
    requires free { 0 < spare members.old }
    ensures entries { members.new.entries ≡ members.old.entries ++ new_entry (code, votes) ∷ [] }
    ensures room { spare members.old ≤ spare members.new + 1 }
{
    add(members, code, Standing::fresh(votes));
}

// Makes the members those of a new register, in the given order.
pub(crate) fn enter_all(
    members: &mut IndexMap<MemberCode, Standing>,
    opening: &[(MemberCode, Votes)],
)
    requires apart { has_duplicate opening.now ≡ false }
    requires few { length opening.now ≤ MAX_MEMBERS }
    requires room { MAX_MEMBERS ≤ length members.old.entries + spare members.old }
    ensures entries { members.new.entries ≡ map new_entry opening.now }
    ensures room { MAX_MEMBERS ≤ length members.new.entries + spare members.new }
{
    members.clear();
    for member in opening {
        enter_new(members, member.0, member.1);
    }
}

// The code and the standing of the member at this index.
fn row(members: &IndexMap<MemberCode, Standing>, index: usize) -> (MemberCode, Standing)
    requires { index < length members.now.entries }
    ensures { slice_get members.now.entries index ≡ Some result }
{
    match members.get_index(index) {
        Some((code, standing)) => (*code, *standing),
        None => unreachable!(),
    }
}

// The members except the one at this index, and others after them.
fn others(
    members: &IndexMap<MemberCode, Standing>,
    index: usize,
) -> [(MemberCode, Standing); MAX_MEMBERS]
    requires within { index < length members.now.entries }
    requires few { length members.now.entries ≤ MAX_MEMBERS }
    ensures others { take (length members.now.entries - 1) result ≡ remove members.now.entries index }
    ensures long { length result ≡ MAX_MEMBERS }
    ensures apart { IsDistinct same_code (keys_of members.now.entries) }
{
    // The prover needs this line, since a standing has a chair.
    let _nowhere: Option<ChairId> = None;
    let mut rows = [row(members, index); MAX_MEMBERS];
    for place in 0..members.len() - 1 {
        let from = if place < index { place } else { place + 1 };
        rows[place] = row(members, from);
    }
    rows
}

// Makes these the members, in the given order.
fn enter_again(members: &mut IndexMap<MemberCode, Standing>, rows: &[(MemberCode, Standing)])
    requires apart { IsDistinct same_code (keys_of rows.now) }
    requires few { length rows.now ≤ MAX_MEMBERS }
    requires room { MAX_MEMBERS ≤ length members.old.entries + spare members.old }
    ensures entries { members.new.entries ≡ rows.now }
    ensures room { MAX_MEMBERS ≤ length members.new.entries + spare members.new }
{
    members.clear();
    for row in rows {
        add(members, row.0, row.1);
    }
}

// Removes the member at this index, and frees its place. The members after it move up.
pub(crate) fn take_out(members: &mut IndexMap<MemberCode, Standing>, index: usize)
    requires within { index < length members.old.entries }
    requires few { length members.old.entries ≤ MAX_MEMBERS }
    requires room { MAX_MEMBERS ≤ length members.old.entries + spare members.old }
    ensures entries { members.new.entries ≡ remove members.old.entries index }
    ensures room { MAX_MEMBERS ≤ length members.new.entries + spare members.new }
{
    if MAX_MEMBERS < members.capacity() {
        let _gone = members.shift_remove_index(index);
        return;
    }
    // A map doesn't free the place of an entry that is removed alone.
    let rows = others(members, index);
    let rest = members.len() - 1;
    enter_again(members, &rows[..rest]);
}
