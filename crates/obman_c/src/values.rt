//! What C is told of a reply beside its number.
//!
//! For the calls that are made most one look at the reply gives both the value and the number: a second one costs
//! instructions in each call.
ghost use Rattle.std.specs.Prelude.{◌≡◌};
ghost use Rattle.ob_manager.specs.Steps.{reply_of};
ghost use Rattle.obman_c.specs.Telling.{answer_in, count_in, flags_in, member_in, object_of, opening_in, outcome_of};
ghost use Rattle.obman_c.specs.Telling.{opening_of, pins_of, reaping_in, references_in, status_of, thread_in};

use crate::status::{EXISTS, PENDING, told};
use ob_manager::Reply;
use ob_rights::Fault;
use obman_c_base::SUCCESS;
use pin_core::Id;
use pin_words::Reclaim;

/// An object (`om_object`).
#[repr(C)]
#[derive(Clone, Copy)]
pub struct Object {
    /// Its slot.
    pub slot: u32,
    /// Its generation.
    pub generation: u32,
}

/// A process and a thread of it (`om_member`).
#[repr(C)]
#[derive(Clone, Copy)]
pub struct Member {
    /// The process.
    pub process: u32,
    /// The thread.
    pub thread: u32,
}

/// A handle, and the object that it names (`om_opening`).
#[repr(C)]
#[derive(Clone, Copy)]
pub struct Opening {
    /// The handle.
    pub handle: u32,
    /// The object.
    pub object: Object,
}

/// What became of a slot that was to be taken back (`om_reaping`).
#[repr(C)]
#[derive(Clone, Copy)]
pub struct Reaping {
    /// The object that was in it.
    pub object: Object,
    /// 0 where the slot is free, 1 where it is given up for good, 2 where somebody pins it.
    pub outcome: u32,
    /// How many pins it has, where somebody pins it, else 0.
    pub pins: u32,
}

/// What refers to an object (`om_references`).
#[repr(C)]
#[derive(Clone, Copy)]
pub struct References {
    /// Places of pending waits.
    pub waits: u64,
    /// Handles.
    pub handles: u32,
    /// 1 where there is neither, else 0.
    pub hold: u32,
}

/// The object of an Id.
pub(crate) fn object_of(id: Id) -> Object
    ensures { result ≡ object_of id }
{
    Object {
        slot: id.slot,
        generation: id.generation,
    }
}

/// A handle to the object of an Id.
#[inline(always)]
fn opening_of(handle: u32, id: Id) -> Opening
    ensures { result ≡ opening_of handle id }
{
    Opening {
        handle,
        object: object_of(id),
    }
}

/// Tells of a new process.
pub(crate) fn tell_member(answer: Result<Reply, Fault>, out: &mut Member) -> u32
    ensures told { result ≡ status_of (reply_of answer) }
    ensures value { out.new ≡ member_in (reply_of answer) out.old }
{
    if let Ok(Reply::Spawned { process, thread }) = answer {
        *out = Member { process, thread };
    }
    told(answer)
}

/// Tells of a new thread.
pub(crate) fn tell_thread(answer: Result<Reply, Fault>, out: &mut u32) -> u32
    ensures told { result ≡ status_of (reply_of answer) }
    ensures value { out.new ≡ thread_in (reply_of answer) out.old }
{
    if let Ok(Reply::Started { thread }) = answer {
        *out = thread;
    }
    told(answer)
}

/// Tells of a new handle.
pub(crate) fn tell_opening(answer: Result<Reply, Fault>, out: &mut Opening) -> u32
    ensures told { result ≡ status_of (reply_of answer) }
    ensures value { out.new ≡ opening_in (reply_of answer) out.old }
{
    match answer {
        Ok(
            Reply::Made { handle, id }
            | Reply::Opened { handle, id }
            | Reply::Duplicated { handle, id },
        ) => {
            *out = opening_of(handle, id);
            SUCCESS
        }
        Ok(Reply::Exists { handle, id }) => {
            *out = opening_of(handle, id);
            EXISTS
        }
        answer => told(answer),
    }
}

/// Tells of a handle's flags.
pub(crate) fn tell_flags(answer: Result<Reply, Fault>, out: &mut u32) -> u32
    ensures told { result ≡ status_of (reply_of answer) }
    ensures value { out.new ≡ flags_in (reply_of answer) out.old }
{
    if let Ok(Reply::Flags { bits }) = answer {
        *out = bits;
    }
    told(answer)
}

/// Tells of a semaphore's count.
#[inline(always)]
pub(crate) fn tell_count(answer: Result<Reply, Fault>, out: &mut u32) -> u32
    ensures told { result ≡ status_of (reply_of answer) }
    ensures value { out.new ≡ count_in (reply_of answer) out.old }
{
    match answer {
        Ok(Reply::Previous { count }) => {
            *out = count;
            SUCCESS
        }
        answer => told(answer),
    }
}

/// Tells of a wait.
#[inline(always)]
pub(crate) fn tell_answer(answer: Result<Reply, Fault>, out: &mut u32) -> u32
    ensures told { result ≡ status_of (reply_of answer) }
    ensures value { out.new ≡ answer_in (reply_of answer) out.old }
{
    match answer {
        Ok(Reply::Code { code }) => {
            *out = code;
            SUCCESS
        }
        Ok(Reply::Pending { wait } | Reply::Signaled { wait }) => {
            *out = wait;
            PENDING
        }
        answer => told(answer),
    }
}

/// Tells of a slot.
pub(crate) fn tell_reaping(answer: Result<Reply, Fault>, out: &mut Reaping) -> u32
    ensures told { result ≡ status_of (reply_of answer) }
    ensures value { out.new ≡ reaping_in (reply_of answer) out.old }
{
    match answer {
        Ok(Reply::Reaped { id, outcome }) => {
            *out = Reaping {
                object: object_of(id),
                outcome: number_of(outcome),
                pins: pins_of(outcome),
            };
            SUCCESS
        }
        answer => told(answer),
    }
}

/// Tells what refers to an object.
pub(crate) fn tell_references(answer: Result<Reply, Fault>, out: &mut References) -> u32
    ensures told { result ≡ status_of (reply_of answer) }
    ensures value { out.new ≡ references_in (reply_of answer) out.old }
{
    if let Ok(
        Reply::CountsAre {
            handles,
            waits,
            hold,
        },
    ) = answer
    {
        *out = References {
            waits,
            handles,
            hold,
        };
    }
    told(answer)
}

/// The number of what became of a slot.
fn number_of(outcome: Reclaim) -> u32
    ensures { result ≡ outcome_of outcome }
{
    match outcome {
        Reclaim::Freed => 0,
        Reclaim::Retired => 1,
        Reclaim::Held { .. } => 2,
    }
}

/// How many pins hold a slot.
fn pins_of(outcome: Reclaim) -> u32
    ensures { result ≡ pins_of outcome }
{
    match outcome {
        Reclaim::Held { pins } => pins,
        _ => 0,
    }
}
