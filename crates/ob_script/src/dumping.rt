//! All that a manager holds, as lines for whoever looks for a fault.
use ob_manager::{Manager, Mode, ObjectState, Reply};
use ob_name::{NameRef, Space};
use ob_rights::HandleFlags;
use ob_waits::Pending;
use pin_core::Id;
use pin_words::PinKeeper;
use std::alloc::{AllocError, Global};

/// A slot, and a thread whose pending wait is for the object there.
type Waiter = (u32, u32);

/// What a manager holds: the moment, each process with its threads and handles, each object, and last the threads that
/// wait for one another for ever. Everything is called as in a script, numbers are decimal, and rights hexadecimal.
///
/// ```text
/// now 50000
/// p1 session 1
///   t1
///   t2 waits by w1 for all of s0.1 s1.1 until 90000
///   t3 waits by w2 for s1.1
///   t4 sleeps by w3
///   t5 has an answer to w4
///   h4 s0.1 0x1f0003 inherit
/// s0.1 event "Global\Ready" manual signaled; handles 1, waits 1: t2
/// s1.1 mutex "session 1\M" owned by t3, 2 times; handles 3, waits 2: t2 t3
/// s2.1 semaphore 1 of 5; handles 1, waits 0
/// s3.1 timer due 70000; handles 1, waits 0
/// s4.1 host 7 signaled; handles 1, waits 0
/// s5.1 ended
/// deadlock of t2 t3
/// ```
///
/// A deadlock is told of threads whose waits have no deadline and need mutexes that others of them own: no call of
/// a thread that isn't among them answers one of these waits, but that which ends one. The refusal is want of memory.
pub fn dump<K: PinKeeper>(alloc: Global, manager: &Manager<K>) -> Result<String, AllocError> {
    let mut text = String::new(alloc);
    let mut waiters = Vec::new(alloc);
    let mut stuck = Vec::new(alloc);
    writeln!(text, "now {}", manager.now())?;
    let mut last = 0;
    while let Some(process) = manager.next_process(last) {
        tell_process(&mut text, manager, process)?;
        tell_threads(&mut text, manager, process, &mut waiters, &mut stuck)?;
        tell_handles(&mut text, manager, process)?;
        last = process;
    }
    waiters.sort_unstable();
    tell_objects(&mut text, manager, waiters.as_slice())?;
    tell_deadlock(&mut text, manager, stuck)?;
    Ok(text)
}

fn tell_process<K: PinKeeper>(
    text: &mut String,
    manager: &Manager<K>,
    process: u32,
) -> Result<(), AllocError> {
    match manager.session_of(process) {
        Some(session) => writeln!(text, "p{process} session {session}"),
        None => Ok(()),
    }
}

/// The threads of a process, each with its wait; collects who waits for what, and whose wait has no deadline.
fn tell_threads<K: PinKeeper>(
    text: &mut String,
    manager: &Manager<K>,
    process: u32,
    waiters: &mut Vec<Waiter>,
    stuck: &mut Vec<u32>,
) -> Result<(), AllocError> {
    let mut last = 0;
    while let Some(thread) = manager.next_thread(process, last) {
        write!(text, "  t{thread}")?;
        if let Some(wait) = manager.wait_of(thread) {
            match manager.objects_waited_for(wait) {
                Some(pending) => {
                    tell_wait(text, wait, &pending)?;
                    for id in pending.ids {
                        waiters.push((id.slot, thread))?;
                    }
                    if pending.deadline.is_none() {
                        stuck.push(thread)?;
                    }
                }
                None => write!(text, " has an answer to w{wait}")?,
            }
        }
        text.push('\n')?;
        last = thread;
    }
    Ok(())
}

fn tell_wait(text: &mut String, wait: u32, pending: &Pending<'_>) -> Result<(), AllocError> {
    if pending.ids.is_empty() {
        write!(text, " sleeps by w{wait}")?;
    } else {
        write!(text, " waits by w{wait} for")?;
        match pending.mode {
            Mode::All => write!(text, " all of")?,
            Mode::Any if pending.ids.len() > 1 => write!(text, " any of")?,
            Mode::Any => {}
        }
        for id in pending.ids {
            tell_id(text, *id)?;
        }
    }
    match pending.deadline {
        Some(moment) => write!(text, " until {moment}"),
        None => Ok(()),
    }
}

fn tell_id(text: &mut String, id: Id) -> Result<(), AllocError> {
    write!(text, " s{}.{}", id.slot, id.generation)
}

fn tell_handles<K: PinKeeper>(
    text: &mut String,
    manager: &Manager<K>,
    process: u32,
) -> Result<(), AllocError> {
    let mut last = 0;
    while let Some((handle, entry)) = manager.next_handle(process, last) {
        write!(text, "  h{handle}")?;
        tell_id(text, entry.id)?;
        write!(text, " {:#x}", entry.rights.0)?;
        if entry.flags.0 & 1 != 0 {
            write!(text, " inherit")?;
        }
        if entry.flags.0 & 2 != 0 {
            write!(text, " protected")?;
        }
        text.push('\n')?;
        last = handle;
    }
    Ok(())
}

/// The objects, each with the threads whose waits are for it.
fn tell_objects<K: PinKeeper>(
    text: &mut String,
    manager: &Manager<K>,
    waiters: &[Waiter],
) -> Result<(), AllocError> {
    let mut rest = waiters;
    let mut from = 0;
    while let Some(id) = manager.next_object(from) {
        write!(text, "s{}.{}", id.slot, id.generation)?;
        tell_state(text, manager, id)?;
        while let [(slot, thread), behind @ ..] = rest
            && *slot == id.slot
        {
            write!(text, " t{thread}")?;
            rest = behind;
        }
        text.push('\n')?;
        let Some(next) = id.slot.checked_add(1) else {
            return Ok(());
        };
        from = next;
    }
    Ok(())
}

/// What an object is, its name, its state, and what refers to it; behind that stand those who wait for it.
fn tell_state<K: PinKeeper>(
    text: &mut String,
    manager: &Manager<K>,
    id: Id,
) -> Result<(), AllocError> {
    let (Some(state), Some(card)) = (manager.state_of(id), manager.card(id)) else {
        return Ok(());
    };
    match state {
        ObjectState::Event { .. } => write!(text, " event")?,
        ObjectState::Mutex { .. } => write!(text, " mutex")?,
        ObjectState::Semaphore { .. } => write!(text, " semaphore")?,
        ObjectState::Timer { .. } => write!(text, " timer")?,
        ObjectState::Host { object_type, .. } => write!(text, " host {object_type}")?,
        ObjectState::Ended => return write!(text, " ended"),
    }
    if let Some(name) = manager.name_of(id) {
        tell_name(text, name)?;
    }
    if card.descr.manual {
        write!(text, " manual")?;
    }
    match state {
        ObjectState::Event { set: signaled }
        | ObjectState::Host { signaled, .. }
        | ObjectState::Timer { signaled, .. } => {
            if signaled {
                write!(text, " signaled")?;
            }
        }
        ObjectState::Semaphore { count, max } => write!(text, " {count} of {max}")?,
        ObjectState::Mutex { abandoned, .. } => {
            if abandoned {
                write!(text, " abandoned")?;
            }
        }
        ObjectState::Ended => {}
    }
    match state {
        ObjectState::Timer {
            due: Some(moment),
            ..
        } => write!(text, " due {moment}")?,
        ObjectState::Mutex {
            owner: Some(thread),
            recursion,
            ..
        } => write!(text, " owned by t{thread}, {recursion} times")?,
        _ => {}
    }
    match manager.counts(id) {
        Reply::CountsAre { handles, waits, .. } => {
            write!(text, "; handles {handles}, waits {waits}")?;
            if waits > 0 {
                text.push(':')?;
            }
            Ok(())
        }
        _ => Ok(()),
    }
}

/// A name as a process of session 0, or of its own session, spells it.
fn tell_name(text: &mut String, name: NameRef<'_>) -> Result<(), AllocError> {
    match name.space {
        Space::Global => write!(text, " \"Global\\")?,
        Space::Session(session) => write!(text, " \"session {}\\", session.number)?,
    }
    for byte in name.base {
        text.push(char::from(*byte))?;
    }
    text.push('"')
}

/// Of threads whose waits have no deadline those stay that wait for one another.
fn tell_deadlock<K: PinKeeper>(
    text: &mut String,
    manager: &Manager<K>,
    mut stuck: Vec<u32>,
) -> Result<(), AllocError> {
    stuck.sort_unstable();
    for _ in 0..stuck.len() {
        let before = stuck.clone()?;
        stuck.retain(|thread| is_held_up(manager, *thread, before.as_slice()));
        if stuck.len() == before.len() {
            break;
        }
    }
    if stuck.is_empty() {
        return Ok(());
    }
    write!(text, "deadlock of")?;
    for thread in stuck.as_slice() {
        write!(text, " t{thread}")?;
    }
    text.push('\n')
}

/// Whether a thread's wait goes on as long as some threads do nothing.
fn is_held_up<K: PinKeeper>(manager: &Manager<K>, thread: u32, by: &[u32]) -> bool {
    let Some(pending) = pending_of(manager, thread) else {
        return false;
    };
    let mut owned = pending
        .ids
        .iter()
        .map(|id| is_owned(manager, *id, thread, by));
    match pending.mode {
        Mode::All => owned.any(|is_so| is_so),
        Mode::Any => !pending.ids.is_empty() && owned.all(|is_so| is_so),
    }
}

fn pending_of<K: PinKeeper>(manager: &Manager<K>, thread: u32) -> Option<Pending<'_>> {
    manager.objects_waited_for(manager.wait_of(thread)?)
}

/// Whether an object is a mutex that another one of some threads owns.
fn is_owned<K: PinKeeper>(manager: &Manager<K>, id: Id, thread: u32, by: &[u32]) -> bool {
    match manager.state_of(id) {
        Some(
            ObjectState::Mutex {
                owner: Some(owner),
                ..
            },
        ) => owner != thread && by.binary_search(&owner).is_ok(),
        _ => false,
    }
}
