ghost use Rattle.std.specs.Prelude.{◌≡◌, ◌<◌, ◌≤◌, ◌+◌, ◌++◌, ℕ, List, IfOk, Ok, OnOk, length, true};
ghost use Rattle.ob_codec.specs.Reading.{Gives, GivesAll, has_at};
ghost use Rattle.ob_tables.specs.Processes.{ProcessesKept};
ghost use Rattle.ob_store.specs.Kept.{StoreInvariant};
ghost use Rattle.ob_waits.specs.Spelling.{are_within};
ghost use Rattle.ob_store.specs.Parts.{parts_of, whole_of};
ghost use Rattle.ob_tables.specs.SavedProcesses.{are_populated};
ghost use Rattle.ob_store.specs.SavedStore.{are_vacated, begun_again, is_vacated, least_bytes, lists_at, moment_at, parts_at};
ghost use Rattle.ob_store.specs.SavedStore.{store_at, store_text, tables_for};
ghost use Rattle.ob_store.specs.State.{last_wait};

use crate::objects::Objects;
use crate::parts::Parts;
use crate::signaled::SignaledSlots;
use crate::store::Store;
use ob_codec::{Cursor, ReadFault, Spelled, TextFault};
use ob_tables::{Limits, Processes, Tables};
use ob_waits::{LAST_MOMENT, Waits};
use pin_words::{LockedPins, PinKeeper};
use std::alloc::{AllocError, Global};

/// How many bytes a slot has at least: its generation, and two flags.
const SLOT_BYTES: usize = 6;

/// Reads a moment. [`TextFault::Value`] where it is after the last.
fn read_moment(from: &mut Cursor<'_>) -> Result<u64, ReadFault>
    ensures read { Gives (λ moment. moment) result (moment_at from.old) from.new }
    ensures last { IfOk result (λ moment. moment ≤ LAST_MOMENT) }
{
    let moment = from.eight()?;
    if moment > LAST_MOMENT {
        return Err(ReadFault::Text(TextFault::Value));
    }
    Ok(moment)
}

/// Whether a process that isn't live has no place in its table.
fn is_vacated(processes: &Processes, tables: &Tables, process: u32) -> bool
    requires { process < length tables.now.tables }
    ensures { result ≡ is_vacated processes.now.processes tables.now.tables process }
{
    processes.session(process).is_some() || tables.entries(process).is_empty()
}

/// Whether none of the first so many processes that aren't live has a place in its table.
fn are_vacated(processes: &Processes, tables: &Tables, given: u32) -> bool
    requires { given ≤ length tables.now.tables }
    ensures { result ≡ are_vacated processes.now.processes tables.now.tables given }
{
    (0..given).all(|process| is_vacated(processes, tables, process))
}

/// Reads handle tables, one for each process number.
fn read_tables(
    alloc: Global,
    limits: Limits,
    processes: &Processes,
    from: &mut Cursor<'_>,
) -> Result<Tables, ReadFault>
    requires few { length processes.now.processes ≤ limits.processes + 1 }
    requires some { 1 ≤ length processes.now.processes }
    ensures { Gives (λ tables. tables) result (tables_for limits processes.now.processes from.old) from.new }
{
    let given = processes.process_places();
    let tables = Tables::read(alloc, limits.processes, limits.handles, given, from)?;
    if !are_vacated(processes, &tables, given) {
        return Err(ReadFault::Text(TextFault::Value));
    }
    Ok(tables)
}

/// What a savestate has before its objects.
#[derive(Drop)]
struct Lists {
    processes: Processes,
    tables: Tables,
    waits: Waits,
}

/// Reads processes and threads, handle tables, and waits.
fn read_lists(
    alloc: Global,
    limits: Limits,
    clock: u64,
    from: &mut Cursor<'_>,
) -> Result<Lists, ReadFault>
    requires { clock ≤ LAST_MOMENT }
    ensures read { Gives (λ lists. (lists.processes, (lists.tables, lists.waits))) result
        (lists_at limits clock from.old) from.new }
    ensures kept { IfOk result (λ lists. ProcessesKept limits lists.processes lists.tables.tables) }
    ensures populated { IfOk result (λ lists. are_populated lists.processes ≡ true) }
    ensures process_limit { IfOk result (λ lists. lists.tables.process_limit ≡ limits.processes) }
    ensures handle_limit { IfOk result (λ lists. lists.tables.handle_limit ≡ limits.handles) }
    ensures wait_limit { IfOk result (λ lists. lists.waits.limit ≡ last_wait limits) }
    ensures within { IfOk result (λ lists. are_within (length lists.processes.threads) limits.slots
        lists.waits.waits ≡ true) }
{
    let processes = Processes::read(alloc, limits.processes, limits.threads, from)?;
    let tables = read_tables(alloc, limits, &processes, from)?;
    let waits = Waits::read(
        alloc,
        limits.last_wait(),
        clock,
        processes.thread_places(),
        limits.slots,
        from,
    )?;
    Ok(Lists {
        processes,
        tables,
        waits,
    })
}

/// Whether there are as many bytes as the slots have at least, where each stands there.
fn has_slots(limits: Limits, from: &Cursor<'_>) -> Result<(), ReadFault>
    ensures { GivesAll (λ nothing. nothing) result (has_at (least_bytes limits) from.now) }
{
    if limits.reuse {
        return Ok(());
    }
    from.has(limits.slots as usize * SLOT_BYTES)
}

/// Reads what stands behind the limits and the moment.
fn read_parts(
    alloc: Global,
    limits: Limits,
    clock: u64,
    from: &mut Cursor<'_>,
) -> Result<Parts<LockedPins>, ReadFault>
    requires { clock ≤ LAST_MOMENT }
    ensures read { Gives (λ parts. whole_of (parts_of parts)) result (parts_at limits clock from.old) from.new }
    ensures kept { IfOk result (λ parts. StoreInvariant (parts_of parts)) }
{
    has_slots(limits, from)?;
    let signaled = SignaledSlots::new(alloc, limits.slots)?;
    let lists = read_lists(alloc, limits, clock, from)?;
    let (objects, names) = Objects::read(
        alloc,
        limits,
        &lists.processes,
        &lists.tables,
        &lists.waits,
        from,
    )?;
    Ok(Parts {
        limits,
        processes: lists.processes,
        tables: lists.tables,
        objects,
        waits: lists.waits,
        names,
        signaled,
    })
}

impl Store<LockedPins> {
    /// Reads a store that [`write`](Store::write) wrote, over a keeper under a lock that begins with its slots. Nobody
    /// holds a copy of an Id. Whatever holds of other stores holds of it. Refused with the first thing that is wrong,
    /// and with want of memory.
    ///
    /// A count asks for no memory before its items are there, nor the slots before there are as many bytes as they have
    /// at least; beside them the store takes 8 bytes for each thread number that its limits let it give. Where numbers
    /// come back the slots ask for as much as those of a new store. Linear in what is there, except that objects are
    /// ordered by their births.
    pub fn read(alloc: Global, from: &mut Cursor<'_>) -> Result<Store<LockedPins>, ReadFault>
        ensures { Gives (λ store. store) result (store_at from.old) from.new }
    {
        let limits = Limits::read(alloc, from)?;
        let clock = read_moment(from)?;
        let parts = read_parts(alloc, limits, clock, from)?;
        Ok(Store { parts, alloc })
    }
}

impl<K: PinKeeper> Store<K> {
    /// Writes the store behind some bytes, but for the copies that are held of its slots, which go with their keeper.
    /// Where memory was wanting, part of it may stand there. Linear in what is there.
    pub fn write(&self, out: &mut Vec<u8>) -> Result<(), AllocError>
        ensures text { OnOk result (out.new.items ≡ out.old.items ++ store_text self.now) }
        // It is read again as it was, whatever stands behind it.
        ensures again { OnOk result ((rest : List ℕ) → store_at (store_text self.now ++ rest)
            ≡ Ok (begun_again self.now, rest)) }
    {
        let parts = &self.parts;
        parts.objects.kept();
        parts.limits.write(out)?;
        parts.waits.clock().write(out)?;
        parts.processes.write(out)?;
        parts.tables.write(out)?;
        parts.waits.write(out)?;
        parts.objects.write(parts.limits.reuse, out)
    }
}
