ghost use Rattle.std.specs.Prelude.{◌≡◌, ◌≤◌, [], length, sum_by};
ghost use Rattle.ob_codec.specs.Reading.{GivesAll};
ghost use Rattle.ob_store.specs.Agreement.{made_by, made_in};
ghost use Rattle.ob_store.specs.SavedBirths.{births_from, with_birth, with_birth_of};
ghost use Rattle.std.specs.Prelude.{None, slice_index_or};

use crate::object_headers::ObjectHeaders;
use ob_codec::{ReadFault, TextFault};
use pin_core::{Phase, Slot};
use std::alloc::Global;
use std::collections::BTreeMap;

/// How many objects a slot has had, the present one included.
pub(crate) fn made_by(phase: Phase, generation: u32) -> u32
    ensures { result ≡ made_by phase generation }
{
    match phase {
        Phase::Free => generation.saturating_sub(1),
        Phase::Live | Phase::Closing | Phase::Retired => generation,
    }
}

/// How many objects all slots have had.
pub(crate) fn count_births(slots: &[Slot]) -> u64
    requires { length slots.now ≤ 65536 }
    ensures { result ≡ sum_by made_in slots.now }
{
    let mut births = 0;
    for slot in slots {
        births += u64::from(made_by(slot.phase, slot.generation));
    }
    births
}

/// Notes the slot of an object of this birth. [`TextFault::Value`] where the birth isn't below the count, or another
/// object has it.
fn note_birth(
    order: &mut BTreeMap<u64, u32>,
    births: u64,
    birth: u64,
    slot: u32,
) -> Result<(), ReadFault>
    ensures { GivesAll (λ _. order.new.entries) result (with_birth births order.old.entries birth slot) }
{
    if birth >= births {
        return Err(ReadFault::Text(TextFault::Value));
    }
    match order.insert(birth, slot)? {
        Some(_) => Err(ReadFault::Text(TextFault::Value)),
        None => Ok(()),
    }
}

/// Notes the slot of the object in it, if there is one, as [`note_birth`] does.
fn note_slot(
    order: &mut BTreeMap<u64, u32>,
    births: u64,
    headers: &ObjectHeaders,
    slot: u32,
) -> Result<(), ReadFault>
    ensures { GivesAll (λ _. order.new.entries) result (with_birth_of births order.old.entries slot
        (slice_index_or headers.now.objects slot None)) }
{
    match headers.look(slot) {
        Some(found) => note_birth(order, births, found.label.birth, slot),
        None => Ok(()),
    }
}

/// The slots of all objects by their births, which are distinct and below their count.
pub(crate) fn order_births(
    alloc: Global,
    births: u64,
    headers: &ObjectHeaders,
) -> Result<BTreeMap<u64, u32>, ReadFault>
    ensures { GivesAll (λ order. order.entries) result (births_from births [] 0 headers.now.objects) }
{
    let mut order = BTreeMap::new(alloc);
    for slot in 0..headers.len() {
        note_slot(&mut order, births, headers, slot)?;
    }
    Ok(order)
}
