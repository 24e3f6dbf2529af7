ghost use Rattle.std.specs.Prelude.{ℕ, List, Option, [], ◌≡◌, ◌+◌, ◌++◌, ◌<◌, ◌≤◌, None, IfOk, IfSome, OnOk, OnErr};
ghost use Rattle.std.specs.Prelude.{is_some, length, slice_index_or, slice_set, true};
ghost use Rattle.std.specs.List.{list_any};
ghost use Rattle.least.specs.From.{IsLeastFrom};
ghost use Rattle.ob_codec.specs.Reading.{Gives};
ghost use Rattle.ob_tables.specs.Tables.{IsBounded, with_table};
ghost use Rattle.ob_tables.specs.declared.entry.Entry.{Entry};
ghost use Rattle.ob_tables.specs.declared.limits.Limits.{Limits};
ghost use Rattle.ob_tables.specs.Processes.{ProcessesKept, ProcessesState, is_of, next_number, no_processes, used_up, with_process, with_thread};
ghost use Rattle.ob_tables.specs.SavedProcesses.{ListsFit, are_of_live, are_populated, is_populated, processes_at};
ghost use Rattle.ob_tables.specs.SavedProcesses.{processes_text};

use crate::members::{first_from, key, members_of};
use crate::numbers::Numbers;
use crate::tables::Tables;
use least::next_place;
use ob_codec::{Cursor, ReadFault, TextFault, write_list};
use std::alloc::{AllocError, Global};
use std::collections::BTreeSet;
use std::marker::Model;

/// The live processes and threads, by their numbers.
#[derive(Drop)]
pub struct Processes {
    // The session of each process.
    processes: Numbers,
    // The process of each thread.
    threads: Numbers,
    // The same threads by their processes.
    members: BTreeSet<u64, Global>,
}

impl Model for Processes {
    ghost use Rattle.ob_tables.specs.Members.{AreMembers};
    ghost use Rattle.ob_tables.specs.Numbers.{AreNumbers};
    ghost use Rattle.ob_tables.specs.Processes.{ProcessesState};

    ghost Value = { ProcessesState };

    ghost view = { λ l. record { processes = l.processes.places.items; threads = l.threads.places.items } };

    ghost invariant = { λ l. AreNumbers l.processes × AreNumbers l.threads
        × AreMembers l.threads.places.items l.members };
}

/// Whether each live thread is of a live process.
fn are_of_live(processes: &Numbers, threads: &Numbers) -> bool
    ensures { result ≡ are_of_live (processes.now.places.items, threads.now.places.items) }
{
    threads.places.as_slice().iter().all(|place| match place {
        Some(process) => processes.get(*process).is_some(),
        None => true,
    })
}

impl Processes {
    /// No process and no thread. The refusal is want of memory.
    pub fn new(alloc: Global) -> Result<Processes, AllocError>
        ensures { IfOk result (λ processes. processes ≡ no_processes) }
    {
        Ok(Processes {
            processes: Numbers::new(alloc)?,
            threads: Numbers::new(alloc)?,
            members: BTreeSet::new(alloc),
        })
    }

    /// Writes the live processes and threads behind some bytes, without their limits.
    pub fn write(&self, out: &mut Vec<u8>) -> Result<(), AllocError>
        ensures text { OnOk result (out.new.items ≡ out.old.items ++ processes_text self.now) }
        ensures fits { OnOk result (ListsFit self.now) }
    {
        write_list(out, self.processes.places.as_slice())?;
        write_list(out, self.threads.places.as_slice())
    }

    /// Reads processes and threads of at most so many numbers. [`TextFault::Value`] where there are more, where number
    /// 0 is somebody's, where a live thread is of a process that isn't live, or a live process has no live thread.
    pub fn read(
        alloc: Global,
        processes: u32,
        threads: u32,
        from: &mut Cursor<'_>,
    ) -> Result<Processes, ReadFault>
        requires few_processes { processes ≤ 65536 }
        requires few_threads { threads ≤ 65536 }
        ensures read { Gives (λ l. l) result (processes_at processes threads from.old) from.new }
        ensures few { IfOk result (λ l. length l.processes ≤ processes + 1) }
        ensures some { IfOk result (λ l. 1 ≤ length l.processes) }
        ensures kept { IfOk result (λ l. (limits : Limits) (tables : List (List (Option Entry)))
            → limits.processes ≡ processes → limits.threads ≡ threads → length tables ≡ length l.processes
            → ((process : ℕ) → slice_index_or l.processes process None ≡ None → slice_index_or tables process [] ≡ [])
            → ProcessesKept limits l tables) }
        ensures populated { IfOk result (λ l. are_populated l ≡ true) }
    {
        let sessions = Numbers::read(alloc, processes, from)?;
        let owners = Numbers::read(alloc, threads, from)?;
        if !are_of_live(&sessions, &owners) {
            return Err(ReadFault::Text(TextFault::Value));
        }
        let members = members_of(alloc, owners.places.as_slice())?;
        let read = Processes {
            processes: sessions,
            threads: owners,
            members,
        };
        if !read.are_populated() {
            return Err(ReadFault::Text(TextFault::Value));
        }
        Ok(read)
    }

    /// Whether a number is gone, or its process has a live thread.
    fn is_populated(&self, process: u32) -> bool
        ensures { result ≡ is_populated self.now process }
    {
        self.session(process).is_none() || self.has_threads(process)
    }

    /// Whether each live process has a live thread.
    fn are_populated(&self) -> bool
        ensures { result ≡ are_populated self.now }
    {
        (0..self.process_places()).all(|process| self.is_populated(process))
    }

    /// One above the greatest process number that was given.
    pub fn process_places(&self) -> u32
        ensures { result ≡ length self.now.processes }
    {
        self.processes.places.len() as u32
    }

    /// One above the greatest thread number that was given.
    pub fn thread_places(&self) -> u32
        ensures { result ≡ length self.now.threads }
    {
        self.threads.places.len() as u32
    }

    /// The next process number, where numbers come back and where they don't.
    pub fn next_process(&self, reuse: bool) -> u32
        ensures { result ≡ next_number reuse self.now.processes }
    {
        self.processes.next(reuse)
    }

    /// The next thread number.
    pub fn next_thread(&self, reuse: bool) -> u32
        ensures { result ≡ next_number reuse self.now.threads }
    {
        self.threads.next(reuse)
    }

    /// How many process numbers are used up, where numbers come back and where they don't.
    pub fn used_processes(&self, reuse: bool) -> u32
        ensures value { result ≡ used_up reuse self.now.processes }
        ensures within { result < length self.now.processes }
    {
        self.processes.used_up(reuse)
    }

    /// How many thread numbers are used up.
    pub fn used_threads(&self, reuse: bool) -> u32
        ensures value { result ≡ used_up reuse self.now.threads }
        ensures within { result < length self.now.threads }
    {
        self.threads.used_up(reuse)
    }

    /// The session of a live process.
    pub fn session(&self, process: u32) -> Option<u32>
        ensures { result ≡ slice_index_or self.now.processes process None }
    {
        self.processes.get(process)
    }

    /// The process of a live thread.
    pub fn process(&self, thread: u32) -> Option<u32>
        ensures { result ≡ slice_index_or self.now.threads thread None }
    {
        self.threads.get(thread)
    }

    /// Adds a process of a session, with its first thread, and its handle table: an empty one, or one with what it
    /// inherits of a parent. Answers its number.
    pub fn add_process(
        &mut self,
        reuse: bool,
        session: u32,
        tables: &mut Tables,
        parent: Option<u32>,
    ) -> Result<u32, AllocError>
        requires limit { next_number reuse self.old.processes ≤ tables.old.process_limit }
        requires processes { next_number reuse self.old.processes ≤ 65536 }
        requires threads { next_number reuse self.old.threads ≤ 65536 }
        requires tabled { length tables.old.tables ≡ length self.old.processes }
        requires parent { IfSome parent (λ process. process < length tables.old.tables) }
        ensures number { IfOk result (λ process. process ≡ next_number reuse self.old.processes) }
        ensures ok { OnOk result (self.new ≡ with_process reuse self.old session) }
        ensures table { OnOk result (tables.new ≡ record tables.old {
          tables = with_table tables.old.tables (next_number reuse self.old.processes) parent;
        }) }
        ensures err { OnErr result (self.new ≡ self.old) }
        ensures same_tables { OnErr result (tables.new ≡ tables.old) }
        ensures bounded { OnOk result (IsBounded tables.old.process_limit tables.old.handle_limit tables.old.tables) }
    {
        let process = self.processes.next(reuse);
        let thread = self.threads.next(reuse);
        self.processes.make_room(process)?;
        self.threads.make_room(thread)?;
        let _ = self.members.insert(key(process, thread))?;
        if tables.add_table(process, parent).is_err() {
            let _ = self.members.remove(&key(process, thread));
            return Err(AllocError);
        }
        self.processes.give(process, session);
        self.threads.give(thread, process);
        Ok(process)
    }

    /// Adds a thread of a process.
    pub fn add_thread(&mut self, reuse: bool, process: u32) -> Result<(), AllocError>
        requires { next_number reuse self.old.threads ≤ 65536 }
        ensures ok { OnOk result (self.new ≡ with_thread reuse self.old process) }
        ensures err { OnErr result (self.new ≡ self.old) }
    {
        let thread = self.threads.next(reuse);
        self.threads.make_room(thread)?;
        let _ = self.members.insert(key(process, thread))?;
        self.threads.give(thread, process);
        Ok(())
    }

    /// The least live thread of a process, from `from` on.
    pub fn thread_from(&self, process: u32, from: u32) -> Option<u32>
        ensures least { IsLeastFrom from (λ thread.
            is_of process (slice_index_or self.now.threads thread None)) result }
        ensures most { IfSome result (λ thread. thread ≤ 65536) }
    {
        first_from(&self.members, process, from)
    }

    /// Whether a process has live threads.
    pub fn has_threads(&self, process: u32) -> bool
        ensures { result ≡ list_any (is_of process) self.now.threads }
    {
        self.thread_from(process, 0).is_some()
    }

    /// The least live process whose number is above `after`.
    pub fn next_live(&self, after: u32) -> Option<u32>
        ensures { IsLeastFrom (after + 1) (λ process. is_some (slice_index_or self.now.processes process None)) result }
    {
        match next_place(self.processes.places.as_slice(), after as usize + 1) {
            Some(process) => Some(process as u32),
            None => None,
        }
    }

    /// The least live thread of a process whose number is above `after`.
    pub fn next_live_of(&self, process: u32, after: u32) -> Option<u32>
        ensures { IsLeastFrom (after + 1) (λ thread.
            is_of process (slice_index_or self.now.threads thread None)) result }
    {
        if after as usize >= self.threads.places.len() {
            return None;
        }
        self.thread_from(process, after + 1)
    }

    /// Takes away the number of a thread that ends.
    pub fn end_thread(&mut self, thread: u32)
        ensures { self.new ≡ record self.old { threads = slice_set self.old.threads thread None } }
    {
        let Some(process) = self.threads.get(thread) else {
            return;
        };
        let _ = self.members.remove(&key(process, thread));
        self.threads.leave(thread);
    }

    /// Takes away the number of a process that ends.
    pub fn end_process(&mut self, process: u32)
        ensures { self.new ≡ record self.old { processes = slice_set self.old.processes process None } }
    {
        self.processes.leave(process);
    }
}
