ghost use Rattle.std.specs.Prelude.{◌≡◌};
ghost use Rattle.ob_codec.specs.Reading.{Gives, option_at};
ghost use Rattle.ob_store.specs.SavedSlots.{any_slot_at, body_stands, content_at, descr_of, is_after, is_fresh, keeper_slot, object_at};
ghost use Rattle.ob_store.specs.SavedSlots.{object_stands, slot_at, slot_stands};

use ob_body::Body;
use ob_codec::{Cursor, ReadFault, Spelled, TextFault};
use ob_name::Name;
use ob_rights::{Kind, Rights};
use pin_core::{Descr, Phase, Slot, read_descr};
use std::alloc::Global;

/// What a savestate says of an object.
#[derive(Drop)]
pub(crate) struct SavedObject {
    pub(crate) birth: u64,
    pub(crate) descr: Descr,
    pub(crate) grant: Rights,
    pub(crate) body: Option<Body>,
    pub(crate) name: Option<Name>,
}

/// What a savestate says of a slot.
#[derive(Drop)]
pub(crate) struct SavedSlot {
    pub(crate) generation: u32,
    pub(crate) retired: bool,
    pub(crate) object: Option<SavedObject>,
}

/// The descriptor that an object with a body has.
fn descr_of(body: &Body) -> Descr
    ensures { result ≡ descr_of body.now }
{
    let (kind, manual, max) = match body {
        Body::Event(event) => (Kind::Event, event.manual, 0),
        Body::Mutex(_) => (Kind::Mutex, false, 0),
        Body::Semaphore(semaphore) => (Kind::Semaphore, false, semaphore.maximum()),
        Body::Timer(timer) => (Kind::Timer, timer.is_manual(), 0),
        Body::Host(host) => (Kind::Event, host.event.manual, 0),
    };
    Descr { kind, manual, max }
}

/// Whether a moment, if there is one, is after now.
fn is_after(clock: u64, due: Option<u64>) -> bool
    ensures { result ≡ is_after clock due }
{
    match due {
        Some(due) => clock < due,
        None => true,
    }
}

/// Whether a body, if there is one, is what its object's descriptor says, and is no timer that is due already.
fn body_stands(clock: u64, descr: Descr, body: Option<Body>) -> bool
    ensures { result ≡ body_stands clock descr body }
{
    match body {
        Some(body) => descr_of(&body) == descr && is_after(clock, body.due()),
        None => true,
    }
}

/// Reads what an object is granted, its body and its name.
fn read_content(
    alloc: Global,
    from: &mut Cursor<'_>,
) -> Result<(Rights, Option<Body>, Option<Name>), ReadFault>
    ensures { Gives (λ read. (read.0, (read.1, read.2))) result (content_at from.old) from.new }
{
    let grant = Rights::read(alloc, from)?;
    let body = Option::<Body>::read(alloc, from)?;
    let name = Option::<Name>::read(alloc, from)?;
    Ok((grant, body, name))
}

impl SavedObject {
    /// Reads an object.
    fn read(alloc: Global, from: &mut Cursor<'_>) -> Result<SavedObject, ReadFault>
        ensures { Gives (λ object. object) result (object_at from.old) from.new }
    {
        let birth = from.eight()?;
        let descr = read_descr(from)?;
        let (grant, body, name) = read_content(alloc, from)?;
        Ok(SavedObject {
            birth,
            descr,
            grant,
            body,
            name,
        })
    }

    /// Reads a flag, and an object where it says that there is one.
    #[tactic(auto, unfolding(ob_codec::specs::Reading::option_at))]
    fn read_some(alloc: Global, from: &mut Cursor<'_>) -> Result<Option<SavedObject>, ReadFault>
        ensures { Gives (λ object. object) result (option_at object_at from.old) from.new }
    {
        match from.byte()? {
            0 => Ok(None),
            1 => {
                let object = SavedObject::read(alloc, from)?;
                Ok(Some(object))
            }
            _ => Err(ReadFault::Text(TextFault::Tag)),
        }
    }
}

impl SavedSlot {
    /// Reads a slot, whatever it says.
    fn read_any(alloc: Global, from: &mut Cursor<'_>) -> Result<SavedSlot, ReadFault>
        ensures { Gives (λ slot. slot) result (any_slot_at from.old) from.new }
    {
        let generation = from.four()?;
        let retired = bool::read(alloc, from)?;
        let object = SavedObject::read_some(alloc, from)?;
        Ok(SavedSlot {
            generation,
            retired,
            object,
        })
    }

    /// Reads a slot. [`TextFault::Value`] where no slot can be so at this moment: its generation isn't one from 1 to
    /// the last, it is retired before the last generation or with an object, its body isn't what the descriptor says,
    /// or a timer is due.
    pub(crate) fn read(
        alloc: Global,
        max_gen: u32,
        clock: u64,
        from: &mut Cursor<'_>,
    ) -> Result<SavedSlot, ReadFault>
        ensures { Gives (λ slot. slot) result (slot_at max_gen clock from.old) from.new }
    {
        let slot = SavedSlot::read_any(alloc, from)?;
        if !slot.stands(max_gen, clock) {
            return Err(ReadFault::Text(TextFault::Value));
        }
        Ok(slot)
    }

    /// Whether its object, if it has one, can be so.
    fn object_stands(&self, clock: u64) -> bool
        ensures { result ≡ object_stands clock self.now.object }
    {
        match &self.object {
            Some(object) => body_stands(clock, object.descr, object.body),
            None => true,
        }
    }

    /// Whether a slot can be so.
    fn stands(&self, max_gen: u32, clock: u64) -> bool
        ensures { result ≡ slot_stands max_gen clock self.now }
    {
        let aged = 1 <= self.generation && self.generation <= max_gen;
        let last = !self.retired || (self.generation == max_gen && self.object.is_none());
        aged && (last && self.object_stands(clock))
    }

    /// Whether it never had an object.
    pub(crate) fn is_fresh(&self) -> bool
        ensures { result ≡ is_fresh self.now }
    {
        self.generation == 1 && (!self.retired && self.object.is_none())
    }

    /// The slot with which a keeper begins.
    pub(crate) fn keeper_slot(&self) -> Slot
        ensures { result ≡ keeper_slot self.now }
    {
        match &self.object {
            Some(object) => Slot {
                generation: self.generation,
                phase: if object.body.is_some() {
                    Phase::Live
                } else {
                    Phase::Closing
                },
                descr: object.descr,
            },
            None => Slot {
                generation: self.generation,
                phase: if self.retired {
                    Phase::Retired
                } else {
                    Phase::Free
                },
                descr: Slot::opening().descr,
            },
        }
    }
}
