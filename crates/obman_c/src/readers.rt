//! Readers: pins without the manager's lock, on any thread.
ghost use Rattle.std.specs.Prelude.{◌≡◌, ◌<◌, [], ◌↔◌, IfNone, IfSome, IsTrue};
ghost use Rattle.pin_core.specs.Holds.{same_id, tally};
ghost use Rattle.pin_words.specs.Seats.{ReaderState};
ghost use Rattle.pin_core.specs.declared.descr.Descr.{Descr};
ghost use Rattle.pin_words.specs.Stepped.{DescrStep, IsHold, ReleaseStep};
ghost use Rattle.ob_store.specs.State.{Whole};
ghost use Rattle.ob_manager.specs.Steps.{Step};
ghost use Rattle.ob_manager.specs.Calls.{Call};
ghost use Rattle.ob_manager.specs.declared.reply.Reply.{Reply};
ghost use Rattle.obman_c.specs.Pinning.{id_at};
ghost use Rattle.obman_c.specs.Reading.{AreOfOne, DescribeTold, InspectTold, IsHeld, PinTold, ReaderOpens, UnpinTold};
ghost use Rattle.obman_c.specs.Reading.{descriptor_of};

use crate::pinning::{Description, description_of, id_at, number_of, number_of_kind};
use ob_rights::{Fault, code_of};
use obman_c_base::{ManagerOwner, OwnedReader, ReaderOut, ReaderOwner, ReaderTaken, SUCCESS};
use pin_core::{Descr, Id};
use pin_words::Reader;
use std::alloc::Global;

/// What a descriptor says (`om_descriptor`).
#[repr(C)]
#[derive(Clone, Copy)]
pub struct Descriptor {
    /// Its kind: an event 0, a mutex 1, a semaphore 2, a timer 3.
    pub kind: u32,
    /// The maximum of a semaphore; else 0.
    pub max: u32,
    /// Whether it is an event that is reset by hand, or a timer that stays signaled until it is set again.
    pub manual: bool,
}

/// A reader of the manager's pins, at a place of C's: 0, or 8. What stood at the place isn't read.
#[tactic(auto, using(crate::proofs::Read::opened, crate::proofs::Read::lacking, crate::proofs::Read::lacking_owner))]
#[unsafe(no_mangle)]
pub extern "C" fn om_reader_new(
    alloc: Global,
    owner: &mut ManagerOwner,
    place: &mut ReaderOut,
) -> u32
    ensures opens { ReaderOpens owner.old.value.manager result owner.new.value.manager place.old.value place.new.value }
    ensures recorder { owner.new.value.recorder ≡ owner.old.value.recorder }
{
    let Some(reader) = owner.lend().manager.reader() else {
        return code_of(Fault::Memory);
    };
    match Box::new(alloc, OwnedReader { reader }) {
        Ok(owned) => {
            *place = ReaderOut::of(owned);
            SUCCESS
        }
        Err(_) => code_of(Fault::Memory),
    }
}

/// The end of a reader, which lets go what it holds. C may use what it passed no more. Zeros are no reader, and nothing
/// is done.
#[unsafe(no_mangle)]
pub extern "C" fn om_reader_free(ending: ReaderTaken) {
    if let Some(owner) = ending.owner() {
        let OwnedReader { mut reader } = Box::into_inner(owner.into_box());
        let_go(&mut reader);
        reader.finish();
    }
}

/// Lets all go that a reader holds.
fn let_go(reader: &mut Reader)
    ensures { reader.new.view.held ≡ [] }
{
    while let Some(id) = one_of(reader.held()) {
        reader.release(id);
    }
}

/// An Id of which a copy is held.
#[tactic(auto, using(crate::proofs::Read::first_there))]
fn one_of(held: &[Id]) -> Option<Id>
    ensures is_there { IfSome result (λ id. 0 < tally (same_id id) held.now) }
    ensures none { IfNone result (held.now ≡ []) }
{
    if held.is_empty() {
        return None;
    }
    Some(held[0])
}

/// [`Reader::try_pin`], one try: 0, 87, 1816, 1168, 6, 1450, or 170 where another reader or the manager changed the
/// slot's word in between.
#[tactic(auto, using(crate::proofs::Read::pinned, crate::proofs::Read::refused, crate::proofs::Read::not_told))]
#[unsafe(no_mangle)]
pub extern "C" fn om_reader_pin(owner: &mut ReaderOwner, slot: u32, generation: u32) -> u32
    ensures told { PinTold (id_at slot generation) owner.old.value.reader result owner.new.value.reader }
    ensures hold { result ≡ 0 → IsHold owner.new.value.reader.view (id_at slot generation) }
    ensures table { owner.new.value.reader.table ≡ owner.old.value.reader.table }
{
    match owner.lend().reader.try_pin(id_at(slot, generation)) {
        Ok(()) => SUCCESS,
        Err(fault) => number_of(fault),
    }
}

/// [`Reader::release_if_held`]: 0, else 6.
#[tactic(auto, using(crate::proofs::Read::unpinned, crate::proofs::Read::unheld))]
#[unsafe(no_mangle)]
pub extern "C" fn om_reader_unpin(owner: &mut ReaderOwner, slot: u32, generation: u32) -> u32
    ensures told { UnpinTold (id_at slot generation) owner.old.value.reader result owner.new.value.reader }
    ensures step { result ≡ 0 → ReleaseStep owner.old.value.reader.view (id_at slot generation) }
    ensures table { owner.new.value.reader.table ≡ owner.old.value.reader.table }
{
    if !owner.lend().reader.release_if_held(id_at(slot, generation)) {
        return code_of(Fault::Handle);
    }
    SUCCESS
}

/// [`Reader::holds`].
#[unsafe(no_mangle)]
pub extern "C" fn om_reader_holds(owner: &mut ReaderOwner, slot: u32, generation: u32) -> bool
    ensures held { IsTrue result ↔ IsHeld (id_at slot generation) owner.old.value.reader }
    ensures same { owner.new.value ≡ owner.old.value }
{
    owner.lend().reader.holds(id_at(slot, generation))
}

/// A descriptor as C is told of it.
fn descriptor_of(descr: Descr) -> Descriptor
    ensures { result ≡ descriptor_of descr }
{
    Descriptor {
        kind: number_of_kind(descr.kind),
        max: descr.max,
        manual: descr.manual,
    }
}

/// [`Reader::descr`], where a copy of the Id is held: 0, else 6.
#[tactic(auto, using(crate::proofs::Read::described, crate::proofs::Read::undescribed))]
#[unsafe(no_mangle)]
pub extern "C" fn om_reader_describe(
    owner: &mut ReaderOwner,
    slot: u32,
    generation: u32,
    descriptor: &mut Descriptor,
) -> u32
    ensures told { DescribeTold (id_at slot generation) owner.old.value.reader result owner.new.value.reader
        descriptor.old descriptor.new }
    ensures step { result ≡ 0 → (d : Descr) × (descriptor.new ≡ descriptor_of d)
        × DescrStep owner.old.value.reader.view (id_at slot generation) d }
    ensures table { owner.new.value.reader.table ≡ owner.old.value.reader.table }
{
    let id = id_at(slot, generation);
    let reader = &mut owner.lend().reader;
    if !reader.holds(id) {
        return code_of(Fault::Handle);
    }
    *descriptor = descriptor_of(reader.descr(id));
    SUCCESS
}

/// [`Manager::inspect`](ob_manager::Manager::inspect), where the reader holds a copy of the Id: 0, else 6.
#[tactic(auto, using(crate::proofs::Read::inspected, crate::proofs::Read::uninspected))]
#[unsafe(no_mangle)]
pub extern "C" fn om_inspect(
    owner: &mut ManagerOwner,
    reader: &mut ReaderOwner,
    slot: u32,
    generation: u32,
    description: &mut Description,
) -> u32
    requires same { AreOfOne owner.old.value.manager reader.old.value.reader }
    ensures told { InspectTold owner.old.value.manager
        (id_at slot generation) reader.old.value.reader result reader.new.value.reader description.old description.new }
    ensures manager { owner.new.value ≡ owner.old.value }
    ensures table { reader.new.value.reader.table ≡ reader.old.value.reader.table }
{
    let id = id_at(slot, generation);
    let owned = reader.lend();
    if !owned.reader.holds(id) {
        return code_of(Fault::Handle);
    }
    *description = description_of(owner.lend().manager.inspect(&mut owned.reader, id));
    SUCCESS
}

/// A reader of a manager's words stays one, whatever call is made.
#[tactic(auto, using(ob_manager::proofs::TableLaws::step_table))]
fn law_of_readers()
    ensures { (old new : Whole) (call : Call) (reply : Reply) (r : ReaderState) → Step old call reply new
        → AreOfOne old r → AreOfOne new r }
{}
