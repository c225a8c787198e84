//! Rows of keys and values.
ghost use Rattle.std.specs.Prelude.{◌≡◌, ◌+◌, ◌*◌, ◌<◌, ◌≤◌, ◌++◌, ◌∷◌, [], None, length, get_or, IfOk, IfSome, IfNone, OnErr, vec_len, vec_capacity};
ghost use Rattle.std.specs.List.{remove};
ghost use Rattle.defs_tree.specs.Pairs.{lookup};
ghost use Rattle.yaml_tree.specs.Places.{IsIndexed};
ghost use Rattle.yaml_tree.specs.Seats.{IsReady, IsReadyWithout};
ghost use Rattle.yaml_tree.specs.View.{view, items_view, pairs_view};

use crate::ranks::Ranks;
use crate::search::{Probe, search};
use crate::steps::Steps;
use crate::yaml::Yaml;
use std::alloc::AllocError;

// Room that the first pair takes: most hashes have no more than four pairs.
const FIRST_ROOM: usize = 8;

/// Makes all ready for a pair with this key to be put at the end. The result is the place of the key's old pair, which is
/// to go first; with none there is room for two more nodes. An `Err` comes only if memory was refused; then both are as
/// they were.
#[inline(never)]
pub(crate) fn seat(
    row: &mut Vec<Yaml>,
    ranks: &mut Ranks,
    key: &Yaml,
) -> Result<Option<usize>, AllocError>
    requires indexed { IsIndexed (items_view row.old.items) ranks.old.kept }
    ensures row { row.new.items ≡ row.old.items }
    ensures room { IfOk result (λ place. IfNone place (vec_len row.new + 2 ≤ vec_capacity row.new)) }
    ensures ready { IfOk result (λ place. IfNone place (IsReady row.old.items key.now ranks.new.kept)) }
    ensures ready_without { IfOk result (λ place. IfSome place (λ p. IsReadyWithout row.old.items p key.now ranks.new.kept)) }
    ensures same { OnErr result (IsIndexed (items_view row.old.items) ranks.new.kept) }
    ensures away { OnErr result (lookup (view key.now) (pairs_view row.old.items) ≡ None) }
{
    let mut steps = Steps::new();
    match search(row.as_slice(), ranks, Probe::Node(key), &mut steps) {
        Ok(spot) => {
            let place = ranks.at(spot);
            let count = row.len() / 2;
            ranks.move_to_end(place, count);
            Ok(Some(place))
        }
        Err(gap) => {
            let room = if row.is_empty() { FIRST_ROOM } else { 2 };
            row.reserve(room)?;
            let alloc = *row.allocator();
            ranks.insert(alloc, row.as_slice(), gap, key)?;
            Ok(None)
        }
    }
}

/// Removes the pair at a place, and returns its value.
pub(crate) fn take(row: &mut Vec<Yaml>, place: usize) -> Yaml
    requires { 2 * place + 1 < length row.old.items }
    ensures value { result ≡ get_or row.old.items (2 * place + 1) result }
    ensures rest { row.new.items ≡ remove (remove row.old.items (2 * place)) (2 * place) }
    ensures len { vec_len row.new + 2 ≡ vec_len row.old }
    ensures capacity { vec_capacity row.old ≤ vec_capacity row.new }
{
    drop(row.remove(2 * place));
    row.remove(2 * place)
}

/// Removes the pair at a place, puts another at the end, and returns the old value.
#[inline(never)]
pub(crate) fn exchange(row: &mut Vec<Yaml>, place: usize, key: Yaml, value: Yaml) -> Yaml
    requires { 2 * place + 1 < length row.old.items }
    ensures value { result ≡ get_or row.old.items (2 * place + 1) result }
    ensures row { row.new.items ≡ remove (remove row.old.items (2 * place)) (2 * place) ++ key ∷ value ∷ [] }
{
    let old = take(row, place);
    row.push_reserved(key);
    row.push_reserved(value);
    old
}

/// Removes the pair at a place, drops it, and puts another at the end.
#[cold]
#[inline(never)]
pub(crate) fn replace(row: &mut Vec<Yaml>, place: usize, key: Yaml, value: Yaml)
    requires { 2 * place + 1 < length row.old.items }
    ensures { row.new.items ≡ remove (remove row.old.items (2 * place)) (2 * place) ++ key ∷ value ∷ [] }
{
    drop(exchange(row, place, key, value));
}
