ghost use Rattle.std.specs.Prelude.{◌≡◌};
ghost use Rattle.ob_manager.specs.States.{state_of, state_of_body};

use ob_body::Body;
use ob_store::Store;
use pin_core::Id;
use pin_words::PinKeeper;

/// What state an object is in. A moment counts units of 100 ns.
#[derive(Clone, Copy, Debug, PartialEq, Eq)]
pub enum ObjectState {
    /// An event.
    Event {
        /// Whether it is set.
        set: bool,
    },
    /// A mutex.
    Mutex {
        /// The thread that owns it.
        owner: Option<u32>,
        /// How many times that thread owns it: 0 where none does.
        recursion: u32,
        /// Whether its last owner ended, and nobody acquired it since.
        abandoned: bool,
    },
    /// A semaphore.
    Semaphore {
        /// Its count, from 0 to its maximum.
        count: u32,
        /// Its maximum, from 1 to 2,147,483,647.
        max: u32,
    },
    /// A timer.
    Timer {
        /// Whether it is signaled.
        signaled: bool,
        /// The moment at which it becomes signaled, if it is set.
        due: Option<u64>,
    },
    /// An object of the host's own.
    Host {
        /// Its type, which the host chose.
        object_type: u8,
        /// Whether it is signaled.
        signaled: bool,
    },
    /// The object ended: no handle and no pending wait names it, and its slot can be taken back.
    Ended,
}

/// The state that a body is in.
fn state_of_body(body: &Option<Body>) -> ObjectState
    ensures { result ≡ state_of_body body.now }
{
    match body {
        Some(Body::Event(event)) => ObjectState::Event { set: event.set },
        Some(Body::Mutex(mutex)) => ObjectState::Mutex {
            owner: mutex.owner(),
            recursion: mutex.recursion(),
            abandoned: mutex.is_abandoned(),
        },
        Some(Body::Semaphore(semaphore)) => ObjectState::Semaphore {
            count: semaphore.count(),
            max: semaphore.maximum(),
        },
        Some(Body::Timer(timer)) => ObjectState::Timer {
            signaled: timer.is_signaled(),
            due: timer.due(),
        },
        Some(Body::Host(host)) => ObjectState::Host {
            object_type: host.object_type,
            signaled: host.event.set,
        },
        None => ObjectState::Ended,
    }
}

/// The state that an object is in.
pub(crate) fn state_of<K: PinKeeper>(store: &Store<K>, id: Id) -> Option<ObjectState>
    ensures { result ≡ state_of store.now.state id }
{
    match store.object(id.slot) {
        Some(found) if found.header.id == id => Some(state_of_body(&found.header.body)),
        _ => None,
    }
}
