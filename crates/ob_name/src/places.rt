// Names that stand at numbered places: `order` has the number of the entry at each place, where one stands.
ghost use Rattle.std.specs.Prelude.{◌≡◌, ℕ, ◌+◌, ◌-◌, ◌<◌, ◌≤◌, None, [], ◌∷◌, length, position, slice_get};
ghost use Rattle.std.specs.Prelude.{vec_capacity, IfNone, IfSome, if◌then◌else◌};
ghost use Rattle.std.specs.HashMap.{spare, values};
ghost use Rattle.std.specs.List.{IsDistinct};
ghost use Rattle.std.specs.Map.{keys_of, lookup};
ghost use Rattle.ob_name.specs.Listing.{same_name};
ghost use Rattle.std.specs.Option.{option_map};
ghost use Rattle.ob_name.specs.Order.{IsOrdered, IsRenumbered, row_on, rows_between, rows_of};
ghost use Rattle.ob_name.specs.Refs.{name_at, row_at};

use crate::entered::Entered;
use crate::name::NameRef;
use crate::owned::Name;
use indexmap::IndexMap;
use pin_core::Id;

/// The number of a name's entry. It isn't inlined, so that the code of the hash stands here alone.
#[inline(never)]
pub(crate) fn entry_of(ids: &IndexMap<Name, Entered>, name: &NameRef<'_>) -> Option<usize>
    ensures index { result ≡ position (same_name (name_at name.now)) (keys_of ids.now.entries) }
    ensures none { IfNone result (lookup (same_name (name_at name.now)) ids.now.entries ≡ None) }
    ensures value { IfSome result (λ index. slice_get (values ids.now) index
        ≡ lookup (same_name (name_at name.now)) ids.now.entries) }
    ensures within { IfSome result (λ index. index < length ids.now.entries) }
    ensures unique { IsDistinct same_name (keys_of ids.now.entries) }
{
    ids.get_index_of(*name)
}

/// Writes the number of an entry to its place.
pub(crate) fn renumber(ids: &IndexMap<Name, Entered>, order: &mut Vec<usize>, index: usize)
    requires { IfSome (slice_get ids.now.entries index) (λ entry. entry.1.place < length order.old.items) }
    ensures numbered { IsRenumbered ids.now.entries index order.old.items order.new.items }
    ensures len { length order.new.items ≡ length order.old.items }
    ensures capacity { vec_capacity order.new ≡ vec_capacity order.old }
{
    if let Some((_, entered)) = ids.get_index(index) {
        order[entered.place] = index;
    }
}

/// The row at a place, if one stands there.
pub(crate) fn row_on<'a>(
    ids: &'a IndexMap<Name, Entered>,
    order: &Vec<usize>,
    place: usize,
) -> Option<(NameRef<'a>, Id)>
    ensures { option_map row_at result ≡ row_on ids.now.entries order.now.items place }
{
    let index = *order.get(place)?;
    let (name, entered) = ids.get_index(index)?;
    if entered.place != place {
        return None;
    }
    Some((name.borrowed(), entered.id))
}

/// The first row at a place or behind it, with the place behind its own.
#[tactic(auto, using(crate::proofs::Walked::passed_by))]
pub(crate) fn first_row<'a>(
    ids: &'a IndexMap<Name, Entered>,
    order: &Vec<usize>,
    from: usize,
) -> Option<(usize, (NameRef<'a>, Id))>
    ensures none { IfNone result (rows_between (row_on ids.now.entries order.now.items) from
        (length order.now.items - from) ≡ []) }
    ensures row { IfSome result (λ found. rows_between (row_on ids.now.entries order.now.items) from
        (length order.now.items - from)
        ≡ row_at found.1 ∷ rows_between (row_on ids.now.entries order.now.items) found.0
        (length order.now.items - found.0)) }
{
    for place in from..order.len() {
        if let Some(row) = row_on(ids, order, place) {
            return Some((place + 1, row));
        }
    }
    None
}

/// Moves the row at a place down to another place, where no row stands from that one up to the first. Answers whether
/// there was a row.
fn move_row(
    ids: &mut IndexMap<Name, Entered>,
    order: &mut Vec<usize>,
    from: usize,
    to: usize,
) -> bool
    requires ordered { IsOrdered ids.old.entries order.old.items }
    requires low { to ≤ from }
    requires high { from < length order.old.items }
    requires gap { (q : ℕ) → to ≤ q → q < from → row_on ids.old.entries order.old.items q ≡ None }
    ensures ordered { IsOrdered ids.new.entries order.new.items }
    ensures rows { rows_of ids.new.entries order.new.items ≡ rows_of ids.old.entries order.old.items }
    ensures gap { (q : ℕ) → (if result then to + 1 else to) ≤ q → q ≤ from
        → row_on ids.new.entries order.new.items q ≡ None }
    ensures len { length order.new.items ≡ length order.old.items }
    ensures capacity { vec_capacity order.new ≡ vec_capacity order.old }
    ensures spare { spare ids.new ≡ spare ids.old }
{
    let index = order[from];
    let Some((_, entered)) = ids.get_index(index) else {
        return false;
    };
    let id = entered.id;
    if entered.place != from {
        return false;
    }
    ids[index] = Entered { id, place: to };
    order[to] = index;
    true
}

/// Closes the holes in the order of entry.
#[tactic(auto, using(crate::proofs::Moved::cuts))]
pub(crate) fn close_up(ids: &mut IndexMap<Name, Entered>, order: &mut Vec<usize>)
    requires ordered { IsOrdered ids.old.entries order.old.items }
    ensures ordered { IsOrdered ids.new.entries order.new.items }
    ensures rows { rows_of ids.new.entries order.new.items ≡ rows_of ids.old.entries order.old.items }
    ensures len { length order.new.items ≤ length order.old.items }
    ensures capacity { vec_capacity order.new ≡ vec_capacity order.old }
    ensures spare { spare ids.new ≡ spare ids.old }
{
    let mut to = 0;
    for from in 0..order.len() {
        if move_row(ids, order, from, to) {
            to += 1;
        }
    }
    order.truncate(to);
}
