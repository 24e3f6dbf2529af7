ghost use Rattle.std.specs.Prelude.{◌≡◌, ◌≤◌, ◌+◌, ◌-◌, ◌++◌, IfOk, OnOk, length, replicate, true};
ghost use Rattle.ob_arena.specs.Slots.{is_vacant_at};
ghost use Rattle.ob_codec.specs.Reading.{Gives, as_at, items_at};
ghost use Rattle.pin_core.specs.Worlds.{opening_slot};
ghost use Rattle.ob_store.specs.Objects.{vacancy};
ghost use Rattle.ob_store.specs.SavedSlots.{begun_with, count_at, slot_at, slots_at, with_saved};
ghost use Rattle.ob_store.specs.SavedObjects.{objects_at, whole_at};
ghost use Rattle.ob_store.specs.State.{shape_of};
ghost use Rattle.ob_store.specs.Kept.{AreFormed, AreOfLive, IsCounted, IsListing, IsNamed, IsQuiet};
ghost use Rattle.ob_waits.specs.Spelling.{are_within};

use crate::births::{count_births, order_births};
use crate::checking_waits::all_stand;
use crate::counting::{count_blocks, count_tables};
use crate::naming::enter_names;
use crate::object_headers::ObjectHeaders;
use crate::objects::Objects;
use crate::saved_slot::{SavedObject, SavedSlot};
use ob_arena::SLOTS_MAX;
use ob_codec::{Cursor, ReadFault, TextFault};
use ob_name::Directory;
use ob_tables::{Limits, Processes, Tables};
use ob_waits::Waits;
use pin_core::{Id, Slot};
use pin_words::LockedPins;
use std::alloc::{AllocError, Global};

/// Puts into a vacant slot what a savestate says of it.
fn restore(headers: &mut ObjectHeaders, slot: u32, saved: SavedSlot)
    requires { is_vacant_at (vacancy headers.old) slot ≡ true }
    ensures { headers.new ≡ with_saved headers.old slot saved.generation saved.retired saved.object }
{
    let SavedSlot {
        generation,
        retired,
        object,
    } = saved;
    match object {
        Some(object) => {
            let SavedObject {
                birth,
                descr,
                grant,
                body,
                name,
            } = object;
            headers.add(Id { slot, generation }, birth, descr, grant, name, body, 0);
        }
        None => {
            if retired {
                headers.retire(slot);
            }
        }
    }
}

/// Reads the first of so many slots, with the objects in them and the slots with which their keeper begins, and whether
/// the last that was read ever had an object. Nothing that refers to the objects is counted yet.
fn read_rows(
    alloc: Global,
    rows: u32,
    slots: u32,
    threads: u32,
    max_gen: u32,
    clock: u64,
    from: &mut Cursor<'_>,
) -> Result<(ObjectHeaders, Vec<Slot>, bool), ReadFault>
    requires within { rows ≤ slots }
    requires most { slots ≤ SLOTS_MAX }
    ensures read { Gives (λ read. (read.0, (read.1.items, read.2))) result
        (as_at (begun_with slots) (items_at (slot_at max_gen clock) rows) from.old) from.new }
    ensures long { IfOk result (λ read. length read.1.items ≡ rows) }
{
    let mut headers = ObjectHeaders::new(alloc, slots, threads)?;
    let mut begun = Vec::new(alloc);
    let mut ends_used = true;
    for slot in 0..rows {
        let saved = SavedSlot::read(alloc, max_gen, clock, from)?;
        ends_used = !saved.is_fresh();
        begun.push(saved.keeper_slot())?;
        restore(&mut headers, slot, saved);
    }
    Ok((headers, begun, ends_used))
}

/// Reads how many slots stand there: each, or how many is said first.
fn read_count(short: bool, slots: u32, from: &mut Cursor<'_>) -> Result<u32, ReadFault>
    ensures read { Gives (λ count. count) result (count_at short slots from.old) from.new }
    ensures within { IfOk result (λ count. count ≤ slots) }
{
    if !short {
        return Ok(slots);
    }
    let count = from.four()?;
    if count > slots {
        return Err(ReadFault::Text(TextFault::Value));
    }
    Ok(count)
}

/// Adds slots that never had an object, until there are so many.
fn fill(begun: &mut Vec<Slot>, slots: u32) -> Result<(), AllocError>
    requires { length begun.old.items ≤ slots }
    ensures { OnOk result (begun.new.items ≡ begun.old.items
        ++ replicate (slots - length begun.old.items) opening_slot) }
{
    for _ in begun.len()..slots as usize {
        begun.push(Slot::opening())?;
    }
    Ok(())
}

/// Reads so many slots, or those up to the last that ever had an object, as [`read_rows`] does.
/// [`TextFault::Value`] where more stand there.
#[tactic(auto, using(crate::proofs::SavedLaws::slots_in_parts))]
pub(crate) fn read_slots(
    alloc: Global,
    short: bool,
    slots: u32,
    threads: u32,
    max_gen: u32,
    clock: u64,
    from: &mut Cursor<'_>,
) -> Result<(ObjectHeaders, Vec<Slot>), ReadFault>
    requires { slots ≤ SLOTS_MAX }
    ensures { Gives (λ read. (read.0, read.1.items)) result (slots_at short slots max_gen clock from.old) from.new }
{
    let count = read_count(short, slots, from)?;
    let (headers, mut begun, ends_used) = read_rows(
        alloc, count, slots, threads, max_gen, clock, from,
    )?;
    if short && !ends_used {
        return Err(ReadFault::Text(TextFault::Value));
    }
    fill(&mut begun, slots)?;
    Ok((headers, begun))
}

/// Reads the objects, counts what refers to them, and enters the names of those that have handles.
fn read_whole(
    alloc: Global,
    limits: Limits,
    tables: &Tables,
    waits: &Waits,
    from: &mut Cursor<'_>,
) -> Result<(Objects<LockedPins>, Directory), ReadFault>
    ensures { Gives (λ read. (read.0, read.1.rows)) result
        (whole_at limits tables.now.tables waits.now from.old) from.new }
{
    let (mut headers, slots) = read_slots(
        alloc,
        limits.reuse,
        limits.slots,
        limits.threads + 1,
        limits.max_gen,
        waits.clock(),
        from,
    )?;
    if !count_tables(&mut headers, tables) {
        return Err(ReadFault::Text(TextFault::Value));
    }
    count_blocks(&mut headers, waits);
    let births = count_births(slots.as_slice());
    let order = order_births(alloc, births, &headers)?;
    if !headers.are_bodied() {
        return Err(ReadFault::Text(TextFault::Value));
    }
    let names = enter_names(alloc, &order, &headers)?;
    let keeper = LockedPins::with_slots(limits.shape(), slots);
    let objects = Objects {
        headers,
        births,
        keeper,
    };
    Ok((objects, names))
}

impl Objects<LockedPins> {
    /// Reads the objects of a savestate at the moment of its waits, over a keeper that begins with their slots, and
    /// makes the directory of their names. The handles of each object are the entries of the tables that name it, and
    /// its blocks the places of pending waits that do. [`TextFault::Value`] where no slot can be as one is said to be,
    /// an entry or a wait names an object that isn't there, two objects have one birth, two with handles have one name,
    /// or an object has a body but nothing refers to it, or the other way round; where a wait's thread or the owner of
    /// a mutex isn't live; and where a pending wait is satisfied, or its thread owns one of its mutexes as often as the
    /// limit lets.
    pub(crate) fn read(
        alloc: Global,
        limits: Limits,
        processes: &Processes,
        tables: &Tables,
        waits: &Waits,
        from: &mut Cursor<'_>,
    ) -> Result<(Objects<LockedPins>, Directory), ReadFault>
        requires { are_within (length processes.now.threads) limits.slots waits.now.waits ≡ true }
        ensures read { Gives (λ read. (read.0, read.1.rows)) result
            (objects_at limits processes.now.threads tables.now.tables waits.now from.old) from.new }
        ensures shape { IfOk result (λ read. read.0.keeper.shape ≡ shape_of limits) }
        ensures formed { IfOk result (λ read. AreFormed waits.now.clock read.0.objects read.0.seen.bodies) }
        ensures counted { IfOk result (λ read. IsCounted read.0.seen (length read.0.objects) tables.now.tables
            waits.now.waits) }
        ensures named { IfOk result (λ read. IsNamed read.0.objects tables.now.tables waits.now.waits) }
        ensures of_live { IfOk result (λ read. AreOfLive processes.now.threads read.0.seen.bodies waits.now.waits) }
        ensures quiet { IfOk result (λ read. IsQuiet limits.max_recursion read.0.seen.bodies waits.now.waits) }
        ensures listing { IfOk result (λ read. IsListing read.1.rows tables.now.tables read.0.objects read.0.births) }
    {
        let (objects, names) = read_whole(alloc, limits, tables, waits, from)?;
        objects.kept();
        if !all_stand(&objects, limits, processes, waits) {
            return Err(ReadFault::Text(TextFault::Value));
        }
        Ok((objects, names))
    }
}
