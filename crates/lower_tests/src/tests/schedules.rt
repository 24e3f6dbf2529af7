use crate::tests::{holds, same};
use ob_rights::Kind;
use pin_core::{Descr, Event, Id, Phase, Reason, ReplayFault, Shape, Word, World, replay, step};
use std::alloc::Global;
use std::process::Abort;
use std::test::Fail;

/// Words with their bits.
#[rattlefmt::skip]
const WORDS: &[(Word, u64)] = &[
    (Word { generation: 1, phase: Phase::Free, pins: 0 }, 0x0000000100000000),
    (Word { generation: 1, phase: Phase::Live, pins: 0 }, 0x0000000140000000),
    (Word { generation: 1, phase: Phase::Live, pins: 1 }, 0x0000000140000001),
    (Word { generation: 1, phase: Phase::Closing, pins: 1 }, 0x00000001c0000001),
    (Word { generation: 2, phase: Phase::Free, pins: 0 }, 0x0000000200000000),
    (Word { generation: 2, phase: Phase::Live, pins: 0 }, 0x0000000240000000),
    (Word { generation: 2, phase: Phase::Retired, pins: 0 }, 0x0000000280000000),
    (Word { generation: 4294967295, phase: Phase::Live, pins: 1073741823 }, 0xffffffff7fffffff),
];

#[test]
fn words_have_their_bits(rt: HostRuntime) {
    for (word, bits) in WORDS {
        same(&rt, Word::decode(*bits), *word);
    }
}

/// Bits with the descriptor that they are of, if they are of one.
#[rattlefmt::skip]
const DESCRIPTORS: &[(u64, Option<Descr>)] = &[
    (0x0000000000000000, Some(Descr { kind: Kind::Event, manual: false, max: 0 })),
    (0x0000000000000001, Some(Descr { kind: Kind::Mutex, manual: false, max: 0 })),
    (0x0000000000000004, Some(Descr { kind: Kind::Event, manual: true, max: 0 })),
    (0x0000000000000003, Some(Descr { kind: Kind::Timer, manual: false, max: 0 })),
    (0x0000000000000007, Some(Descr { kind: Kind::Timer, manual: true, max: 0 })),
    (0x000000000000002a, Some(Descr { kind: Kind::Semaphore, manual: false, max: 5 })),
    (0x00000003fffffffa, Some(Descr { kind: Kind::Semaphore, manual: false, max: 2147483647 })),
    (0x000000000000000b, None),
    (0x000000000000000f, None),
    (0x0000000000000005, None),
    (0x000000000000002e, None),
    (0x0000000000000008, None),
    (0x0000000000000009, None),
    (0x0000000000000002, None),
    (0x0000000400000000, None),
    (0x8000000000000000, None),
];

#[test]
fn descriptors_have_their_bits(rt: HostRuntime) {
    for (bits, descr) in DESCRIPTORS {
        same(&rt, Descr::decode(*bits), *descr);
    }
}

const AUTO_EVENT: Descr = Descr {
    kind: Kind::Event,
    manual: false,
    max: 0,
};

const FIRST: Id = Id {
    slot: 0,
    generation: 1,
};

const STORE: Event = Event::StoreDescr {
    slot: 0,
    descr: AUTO_EVENT,
};

const PUBLISH: Event = Event::Publish { slot: 0 };

const CLOSE: Event = Event::CloseSlot { slot: 0 };

const RECLAIM: Event = Event::Reclaim { slot: 0 };

const LOAD: Event = Event::Load { reader: 1, slot: 0 };

const RELEASE: Event = Event::Release {
    reader: 1,
    id: FIRST,
};

/// Pins over a word of the first generation.
#[rattlefmt::skip]
const PIN: Event = Event::Pin { reader: 1, slot: 0, expected: Word { generation: 1, phase: Phase::Live, pins: 0 } };

#[rattlefmt::skip]
const PIN_AGAIN: Event = Event::Pin { reader: 1, slot: 0, expected: Word { generation: 1, phase: Phase::Live, pins: 1 } };

#[rattlefmt::skip]
const PIN_CLOSING: Event = Event::Pin { reader: 1, slot: 0, expected: Word { generation: 1, phase: Phase::Closing, pins: 0 } };

#[rattlefmt::skip]
const READ: Event = Event::ReadDescr { reader: 1, id: FIRST, descr: AUTO_EVENT };

#[rattlefmt::skip]
const READ_MUTEX: Event = Event::ReadDescr { reader: 1, id: FIRST, descr: Descr { kind: Kind::Mutex, manual: false, max: 0 } };

/// Events of one slot of so many pins and generations, with the first one that is refused, and why.
#[rattlefmt::skip]
const REFUSED: &[(u32, u32, &[Event], u64, Reason)] = &[
    (4, 5, &[STORE, PUBLISH, LOAD, CLOSE, RECLAIM, PUBLISH, PIN], 7, Reason::WordDiffers),
    (4, 5, &[STORE, PUBLISH, LOAD, PIN, CLOSE, RECLAIM], 6, Reason::Pinned),
    (4, 5, &[PUBLISH, CLOSE, PIN_CLOSING], 3, Reason::WrongPhase),
    (1, 5, &[PUBLISH, PIN, PIN_AGAIN], 3, Reason::PinsFull),
    (4, 1, &[PUBLISH, CLOSE, RECLAIM, PUBLISH], 4, Reason::WrongPhase),
    (4, 5, &[PUBLISH, READ], 2, Reason::NotHeld),
    (4, 5, &[PUBLISH, PIN, READ_MUTEX], 3, Reason::DescrDiffers),
    (4, 5, &[Event::Publish { slot: 1 }], 1, Reason::NoSlot),
];

/// The same of events of which none is refused, with the generation, the phase and the pins that the slot has then, and
/// with the objects that were published.
#[rattlefmt::skip]
const TAKEN: &[(&[Event], u32, Phase, usize, &[(Id, Descr)])] = &[
    (&[], 1, Phase::Free, 0, &[]),
    (&[STORE, PUBLISH, LOAD, PIN, CLOSE, RELEASE, RECLAIM], 2, Phase::Free, 0, &[(FIRST, AUTO_EVENT)]),
    (&[STORE, PUBLISH, LOAD, CLOSE, RECLAIM, PUBLISH], 2, Phase::Live, 0,
        &[(FIRST, AUTO_EVENT), (Id { slot: 0, generation: 2 }, AUTO_EVENT)]),
    (&[PUBLISH, PIN, READ, CLOSE], 1, Phase::Closing, 1, &[(FIRST, AUTO_EVENT)]),
];

fn fault(alloc: Global, shape: Shape, events: &[Event]) -> Option<ReplayFault> {
    replay(alloc, shape, events).err()
}

#[test]
fn the_first_impossible_event_is_named(rt: HostRuntime) {
    for (max_pins, max_gen, events, event, reason) in REFUSED {
        let shape = Shape {
            slots: 1,
            max_pins: *max_pins,
            max_gen: *max_gen,
        };
        let due = ReplayFault::Refused {
            event: *event,
            reason: *reason,
        };
        same(&rt, fault(rt.alloc(), shape, events), Some(due));
    }
}

const SHAPE: Shape = Shape {
    slots: 1,
    max_pins: 4,
    max_gen: 5,
};

/// The world behind some events. What was given serves a second try.
fn world_behind(alloc: Global, events: &[Event]) -> Option<World> {
    match replay(alloc, SHAPE, events) {
        Ok(world) => Some(world),
        Err(_) => replay(alloc, SHAPE, events).ok(),
    }
}

/// Whether the one slot is as it should be.
fn is_at(world: &World, generation: u32, phase: Phase, pins: usize) -> bool {
    world.exists(0)
        && world.slot(0).generation == generation
        && world.slot(0).phase == phase
        && world.pins(0) == pins
        && world.copies(1, FIRST) == pins
}

#[test]
fn events_are_replayed(rt: HostRuntime) -> Result<(), Fail> {
    for (events, generation, phase, pins, published) in TAKEN {
        let Some(world) = world_behind(rt.alloc(), events) else {
            panic!(rt; "no memory")
        };
        holds(&rt, is_at(&world, *generation, *phase, *pins));
        holds(&rt, world.published() == *published);
    }
    Ok(())
}

/// Makes events, each once more where memory was wanting.
fn goes_on(rt: &impl Abort, world: &mut World, events: &[Event]) {
    for event in events {
        if step(world, event).is_err() {
            holds(rt, step(world, event).is_ok());
        }
    }
}

#[test]
fn a_step_is_made_after_want_of_memory(rt: HostRuntime) -> Result<(), Fail> {
    let Some(mut world) = world_behind(rt.alloc(), &[STORE, PUBLISH]) else {
        panic!(rt; "no memory")
    };
    goes_on(&rt, &mut world, &[LOAD, PIN, CLOSE]);
    holds(&rt, is_at(&world, 1, Phase::Closing, 1));
    Ok(())
}
