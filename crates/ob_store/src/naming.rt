ghost use Rattle.ob_codec.specs.Reading.{GivesAll};
ghost use Rattle.ob_store.specs.SavedNames.{names_in, slot_row, with_name, with_row};

use crate::object_headers::ObjectHeaders;
use ob_codec::{ReadFault, TextFault};
use ob_name::{Directory, Name};
use pin_core::Id;
use std::alloc::Global;
use std::collections::BTreeMap;

/// Enters a name. [`TextFault::Value`] where it stands there already.
fn enter_name(names: &mut Directory, name: &Name, id: Id) -> Result<(), ReadFault>
    ensures { GivesAll (λ _. names.new.rows) result (with_name names.old.rows name.now id) }
{
    let name = name.borrowed();
    if names.find(&name).is_some() {
        return Err(ReadFault::Text(TextFault::Value));
    }
    match names.reserve(&name) {
        Ok(entered) => {
            names.enter(entered, id);
            Ok(())
        }
        Err(_) => Err(ReadFault::Memory),
    }
}

/// Enters the name of the object in a slot, if there is one that has handles and a name.
fn enter_slot(names: &mut Directory, headers: &ObjectHeaders, slot: u32) -> Result<(), ReadFault>
    ensures { GivesAll (λ _. names.new.rows) result (with_row names.old.rows (slot_row headers.now slot)) }
{
    let Some(found) = headers.look(slot) else {
        return Ok(());
    };
    if found.header.handles == 0 || !found.label.is_named {
        return Ok(());
    }
    match found.name {
        Some(name) => enter_name(names, name, found.header.id),
        None => Ok(()),
    }
}

/// The directory: the names of the objects that have handles, in the order of their births. [`TextFault::Value`] where
/// two of them have one name.
pub(crate) fn enter_names(
    alloc: Global,
    order: &BTreeMap<u64, u32>,
    headers: &ObjectHeaders,
) -> Result<Directory, ReadFault>
    ensures { GivesAll (λ names. names.rows) result (names_in order.now.entries headers.now) }
{
    let mut names = Directory::new(alloc);
    for slot in order.values() {
        enter_slot(&mut names, headers, *slot)?;
    }
    Ok(names)
}
