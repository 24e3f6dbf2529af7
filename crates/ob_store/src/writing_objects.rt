ghost use Rattle.std.specs.Prelude.{◌≡◌, ◌<◌, ◌≤◌, ◌++◌, ℕ, IfSome, None, OnOk, if◌then◌else◌, map};
ghost use Rattle.std.specs.List.{AllByRecursion, flat_map, range_with_len};
ghost use Rattle.std.specs.Option.{option_map};
ghost use Rattle.ob_codec.specs.Spelling.{OptionFits, option};
ghost use Rattle.ob_name.specs.Spelling.{NameFits, name_text};
ghost use Rattle.pin_core.specs.Descrs.{IsGiven};
ghost use Rattle.ob_store.specs.Kept.{AreFormed};
ghost use Rattle.ob_store.specs.Objects.{object_of, tag_of};
ghost use Rattle.ob_store.specs.SavedObjects.{objects_text, saved_of, slot_saved, slots_saved};
ghost use Rattle.ob_store.specs.SavedSlots.{AnySlotFits, ObjectFits, SlotFits, fresh_slot, object_text, slot_text, used};

use crate::births::made_by;
use crate::found::Found;
use crate::label::Label;
use crate::object_header::ObjectHeader;
use crate::objects::Objects;
use ob_codec::Spelled;
use ob_name::Name;
use pin_core::{Phase, write_descr};
use pin_words::PinKeeper;
use std::alloc::AllocError;

/// Writes a name, if there is one.
fn write_name(out: &mut Vec<u8>, is_named: bool, name: &Option<Name>) -> Result<(), AllocError>
    ensures text { OnOk result (out.new.items
        ≡ out.old.items ++ option name_text (if is_named then name.now else None)) }
    ensures fits { OnOk result (OptionFits NameFits (if is_named then name.now else None)) }
{
    if is_named {
        return name.write(out);
    }
    out.push(0)?;
    Ok(())
}

/// Writes an object with its body.
fn write_object(
    out: &mut Vec<u8>,
    header: &ObjectHeader,
    label: &Label,
    name: &Option<Name>,
) -> Result<(), AllocError>
    requires { IsGiven label.now.descr }
    ensures text { OnOk result (out.new.items ≡ out.old.items ++ object_text
        (saved_of (object_of header.now (tag_of label.now name.now)) header.now.body)) }
    ensures fits { OnOk result (ObjectFits
        (saved_of (object_of header.now (tag_of label.now name.now)) header.now.body)) }
{
    label.birth.write(out)?;
    write_descr(out, label.descr)?;
    header.grant.write(out)?;
    header.body.write(out)?;
    write_name(out, label.is_named, name)
}

/// Writes a flag that says whether there is an object, and the object if there is one.
fn write_found(out: &mut Vec<u8>, found: Option<Found<'_>>) -> Result<(), AllocError>
    requires { IfSome found (λ found. IsGiven found.label.now.descr) }
    ensures text { OnOk result (out.new.items ≡ out.old.items ++ option object_text
        (option_map (λ found. saved_of (object_of found.header.now (tag_of found.label.now found.name.now))
        found.header.now.body) found.entry)) }
    ensures fits { OnOk result (OptionFits ObjectFits
        (option_map (λ found. saved_of (object_of found.header.now (tag_of found.label.now found.name.now))
        found.header.now.body) found.entry)) }
{
    match found {
        Some(found) => {
            out.push(1)?;
            write_object(out, found.header, found.label, found.name)
        }
        None => {
            out.push(0)?;
            Ok(())
        }
    }
}

impl<K: PinKeeper> Objects<K> {
    /// Writes a slot with its object.
    fn write_slot(&self, out: &mut Vec<u8>, slot: u32) -> Result<(), AllocError>
        requires { slot < self.now.keeper.shape.slots }
        ensures text { OnOk result (out.new.items ≡ out.old.items ++ slot_text (slot_saved self.now slot)) }
        ensures fits { OnOk result (AnySlotFits (slot_saved self.now slot)) }
    {
        let retired = self.keeper.phase(slot) == Phase::Retired;
        self.keeper.generation(slot).write(out)?;
        retired.write(out)?;
        write_found(out, self.headers.look(slot))
    }

    /// Writes the first of the slots with their objects.
    fn write_rows(&self, rows: u32, out: &mut Vec<u8>) -> Result<(), AllocError>
        requires { rows ≤ self.now.keeper.shape.slots }
        ensures text { OnOk result (out.new.items ≡ out.old.items
            ++ flat_map slot_text (map (slot_saved self.now) (range_with_len 0 rows))) }
        ensures fits { OnOk result ((k : ℕ) → k < rows → AnySlotFits (slot_saved self.now k)) }
    {
        for slot in 0..rows {
            self.write_slot(out, slot)?;
        }
        Ok(())
    }

    /// How many slots there are up to the last that ever had an object.
    fn used(&self) -> u32
        ensures within { result ≤ self.now.keeper.shape.slots }
        ensures value { map (slot_saved self.now) (range_with_len 0 result) ≡ used (slots_saved self.now) }
        ensures fresh { (k : ℕ) → result ≤ k → k < self.now.keeper.shape.slots
            → slot_saved self.now k ≡ fresh_slot }
    {
        self.kept();
        let mut left = self.births;
        for slot in 0..self.slots() {
            if left == 0 {
                return slot;
            }
            left -= u64::from(made_by(self.keeper.phase(slot), self.keeper.generation(slot)));
        }
        self.slots()
    }

    /// Writes the slots with their objects behind some bytes, as [`read`](Objects::read) reads them: each slot, or how
    /// many there are up to the last that ever had an object, and these. Pins aren't written. Where memory was wanting,
    /// part of it may stand there.
    pub fn write(&self, short: bool, out: &mut Vec<u8>) -> Result<(), AllocError>
        ensures text { OnOk result (out.new.items ≡ out.old.items ++ objects_text short self.now) }
        ensures fits { OnOk result ((clock : ℕ) → AreFormed clock self.now.objects self.now.seen.bodies
            → AllByRecursion (SlotFits self.now.keeper.shape.max_gen clock) (slots_saved self.now)) }
    {
        self.kept();
        if !short {
            return self.write_rows(self.slots(), out);
        }
        let rows = self.used();
        rows.write(out)?;
        self.write_rows(rows, out)
    }
}
