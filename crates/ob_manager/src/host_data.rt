ghost use Rattle.std.specs.Prelude.{◌≡◌, ◌+◌, ◌≤◌, OnErr, OnOk, length, slice_index_or, slice_set};
ghost use Rattle.least.specs.Padded.{padded};
ghost use Rattle.ob_manager.specs.Calls.{with_parts};
ghost use Rattle.ob_manager.specs.HostData.{DataFits, KeptFits, data_after, data_at, data_begun, data_text, is_empty};
ghost use Rattle.ob_manager.specs.HostData.{kept_at, kept_text, most, no_data, object_data, process_data, thread_data};
ghost use Rattle.ob_manager.specs.HostData.{with_object_data, with_process_data, with_thread_data};
ghost use Rattle.ob_manager.specs.HostDataLaws.{data_codec, kept_codec};
ghost use Rattle.ob_manager.specs.Steps.{reply_of};

use crate::call::CallOf;
use crate::making::AsMake;
use crate::reply::Reply;
use least::reach;
use ob_codec::{Cursor, ReadFault, Spelled, read_list, write_list};
use ob_rights::Fault;
use pin_core::Id;
use std::alloc::{AllocError, Global};
use std::convert::AsSlice;
use std::marker::Model;

/// What a host keeps at the object of a slot.
#[derive(Clone, Copy)]
pub struct ObjectData {
    /// The generation that the object has in its slot.
    pub generation: u32,
    /// What the host keeps.
    pub value: u64,
}

impl Spelled for ObjectData {
    ghost spell = { kept_text };

    ghost read_at = { kept_at };

    ghost Fits = { KeptFits };

    fn write(&self, out: &mut Vec<u8>) -> Result<(), AllocError> {
        self.generation.write(out)?;
        self.value.write(out)
    }

    fn read(_alloc: Global, from: &mut Cursor<'_>) -> Result<ObjectData, ReadFault> {
        let generation = from.four()?;
        let value = from.eight()?;
        Ok(ObjectData { generation, value })
    }

    ghost codec = { kept_codec };
}

/// What a host keeps at each object, thread and process: 64 bits of its own choosing, 0 at first, at which nothing else
/// looks.
///
/// Each is read and written in constant time, amortised over the growth of the lists up to the highest slot, thread and
/// process at which something was kept.
#[derive(Drop)]
pub struct HostData {
    objects: Vec<ObjectData>,
    threads: Vec<u64>,
    processes: Vec<u64>,
}

impl Model for HostData {
    ghost use Rattle.ob_manager.specs.HostData as spec;

    ghost Value = { spec.HostData };

    ghost view = { λ d. record { objects = d.objects.items; threads = d.threads.items; processes = d.processes.items } };

    ghost use Rattle.std.specs.Prelude.{◌≤◌, length};
    ghost use Rattle.ob_manager.specs.HostData.{most};

    ghost invariant = { λ d. (length d.objects.items ≤ most) × (length d.threads.items ≤ most)
        × (length d.processes.items ≤ most) };
}

impl Spelled for HostData {
    ghost spell = { data_text };

    ghost read_at = { data_at };

    ghost Fits = { DataFits };

    fn write(&self, out: &mut Vec<u8>) -> Result<(), AllocError> {
        write_list(out, self.objects.as_slice())?;
        write_list(out, self.threads.as_slice())?;
        write_list(out, self.processes.as_slice())
    }

    fn read(alloc: Global, from: &mut Cursor<'_>) -> Result<HostData, ReadFault> {
        let objects = read_list::<ObjectData>(alloc, from, u32::MAX)?;
        let threads = read_list::<u64>(alloc, from, u32::MAX)?;
        let processes = read_list::<u64>(alloc, from, u32::MAX)?;
        Ok(HostData {
            objects,
            threads,
            processes,
        })
    }

    ghost codec = { data_codec };
}

/// Writes a place of a list, which is made longer where it has to be. No list is so long that it has the last place
/// that a number can name, which no number does.
fn put<T: Copy>(items: &mut Vec<T>, place: u32, none: T, value: T) -> Result<(), AllocError>
    requires { length items.old.items ≤ most }
    ensures ok { OnOk result (items.new.items ≡ slice_set (padded none (place + 1) items.old.items) place value) }
    ensures err { OnErr result (items.new.items ≡ items.old.items) }
    ensures most { length items.new.items ≤ most }
{
    if place == u32::MAX {
        return Err(AllocError);
    }
    let at = place as usize;
    let more = (at + 1).saturating_sub(items.len());
    items.reserve(more)?;
    reach(items, at, none);
    items[at] = value;
    Ok(())
}

/// What stands at a place of a list.
#[inline(always)]
fn at(items: &[u64], place: u32) -> u64
    ensures { result ≡ slice_index_or items.now place 0 }
{
    let at = place as usize;
    if at < items.len() {
        return items[at];
    }
    0
}

/// Writes 0 at a place of a list, where it is so long.
fn clear(items: &mut Vec<u64>, place: u32)
    ensures { items.new.items ≡ slice_set items.old.items place 0 }
{
    let at = place as usize;
    if at < items.len() {
        items[at] = 0;
    }
}

impl HostData {
    /// Nothing is kept. Takes no memory.
    pub fn new(alloc: Global) -> HostData
        ensures { result ≡ no_data }
    {
        HostData {
            objects: Vec::new(alloc),
            threads: Vec::new(alloc),
            processes: Vec::new(alloc),
        }
    }

    /// What is kept at an object: 0 unless something is. That of an object that has ended is read until something is
    /// kept at a later one of its slot.
    pub fn object(&self, id: Id) -> u64
        ensures { result ≡ object_data self.now id }
    {
        let at = id.slot as usize;
        if at < self.objects.len() {
            let kept = self.objects[at];
            if kept.generation == id.generation {
                return kept.value;
            }
        }
        0
    }

    /// What is kept at a thread: 0 unless something is. That of a thread that has ended is read until its number comes
    /// back.
    pub fn thread(&self, thread: u32) -> u64
        ensures { result ≡ thread_data self.now thread }
    {
        at(self.threads.as_slice(), thread)
    }

    /// The same of a process.
    pub fn process(&self, process: u32) -> u64
        ensures { result ≡ process_data self.now process }
    {
        at(self.processes.as_slice(), process)
    }

    /// Keeps something at an object. The refusal is want of memory.
    pub fn keep_at_object(&mut self, id: Id, value: u64) -> Result<(), AllocError>
        ensures ok { OnOk result (self.new ≡ with_object_data self.old id value) }
        ensures err { OnErr result (self.new ≡ self.old) }
    {
        let none = ObjectData {
            generation: 0,
            value: 0,
        };
        let kept = ObjectData {
            generation: id.generation,
            value,
        };
        put(&mut self.objects, id.slot, none, kept)
    }

    /// Keeps something at a thread. The refusal is want of memory.
    pub fn keep_at_thread(&mut self, thread: u32, value: u64) -> Result<(), AllocError>
        ensures ok { OnOk result (self.new ≡ with_thread_data self.old thread value) }
        ensures err { OnErr result (self.new ≡ self.old) }
    {
        put(&mut self.threads, thread, 0, value)
    }

    /// Keeps something at a process. The refusal is want of memory.
    pub fn keep_at_process(&mut self, process: u32, value: u64) -> Result<(), AllocError>
        ensures ok { OnOk result (self.new ≡ with_process_data self.old process value) }
        ensures err { OnErr result (self.new ≡ self.old) }
    {
        put(&mut self.processes, process, 0, value)
    }

    /// Whether nothing was ever kept.
    pub fn is_empty(&self) -> bool
        ensures { result ≡ is_empty self.now }
    {
        self.objects.is_empty() && self.threads.is_empty() && self.processes.is_empty()
    }

    /// A process or a thread began, perhaps with a number that came back: it has 0.
    fn begin(&mut self, answer: &Result<Reply, Fault>)
        ensures { self.new ≡ data_begun (reply_of answer.now) self.old }
    {
        match answer {
            Ok(Reply::Spawned { process, thread }) => {
                clear(&mut self.processes, *process);
                clear(&mut self.threads, *thread);
            }
            Ok(Reply::Started { thread }) => clear(&mut self.threads, *thread),
            _ => {}
        }
    }

    /// A call was answered: what begins by it has 0. Of a call that nothing begins by no answer is looked at.
    #[inline(always)]
    pub fn follow<M: AsMake, T: AsSlice<u8>, H: AsSlice<u32>>(
        &mut self,
        call: &CallOf<M, T, H>,
        answer: &Result<Reply, Fault>,
    )
        ensures { self.new ≡ data_after (with_parts M.making T.items H.items call.now) (reply_of answer.now) self.old }
    {
        match call {
            CallOf::Spawn { .. } | CallOf::Child { .. } | CallOf::StartThread { .. } => {
                self.begin(answer);
            }
            _ => {}
        }
    }
}
