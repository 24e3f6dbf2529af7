ghost use Rattle.std.specs.Prelude.{[], ◌∷◌, ◌++◌, ◌≡◌, ◌↔◌, ◌⊎◌, ◌+◌, ◌-◌, ◌<◌, ◌≤◌, Err};
ghost use Rattle.std.specs.Prelude.{IfErr, IfOk, IfSome, OnErr, OnOk, IsSome, IsTrue, length, nat_le, nat_lt, ◌&&◌, true};
ghost use Rattle.std.specs.List.{list_all};
ghost use Rattle.ob_codec.specs.Reading.{Gives};
ghost use Rattle.ob_rights.specs.declared.fault.Fault.TheVariants.{Limit, Memory};
ghost use Rattle.ob_tables.specs.Table.{entry_at, free_place, is_packed, value_of};
ghost use Rattle.ob_tables.specs.Counts.{entries_in};
ghost use Rattle.ob_tables.specs.Spelling.{TablesFit, is_short, tables_at, tables_text};
ghost use Rattle.ob_tables.specs.Tables.{table_of, with_child, with_entry_of, with_flags_of, with_process, with_table};
ghost use Rattle.ob_tables.specs.Tables.{new_table, without_entries, without_entry_of, IsBounded};

use crate::entry::Entry;
use crate::table::{HANDLES_MAX, Table};
use ob_codec::{Cursor, ReadFault, TextFault, read_list, write_list};
use ob_rights::{Fault, HandleFlags};
use std::alloc::{AllocError, Global};
use std::marker::Model;
use std::mem;

/// The greatest process number (*profile*).
pub const PROCESSES_MAX: u32 = 65_536;

/// The handle tables of all processes, by their numbers.
///
/// Process numbers go from 1. [`add_process`](Tables::add_process) and [`copy_inheritable`](Tables::copy_inheritable)
/// give each once, [`add_table`](Tables::add_table) any that is free. Handle values are 4, 8, 12 and so on, and the
/// lowest two bits of a value that is handed in are ignored ([Kernel objects]); values 0 to 3 name nothing.
///
/// [Kernel objects]: https://learn.microsoft.com/windows/win32/sysinfo/kernel-objects
#[derive(Drop)]
pub struct Tables {
    tables: Vec<Table>,
    processes: u32,
    handles: u32,
    alloc: Global,
}

impl Model for Tables {
    ghost use Rattle.ob_tables.specs.Tables.{HandleTables, IsBounded};

    ghost Value = { HandleTables };

    ghost view = { λ t. record { process_limit = t.processes; handle_limit = t.handles; tables = t.tables.items } };

    ghost invariant = { λ t. IsBounded t.processes t.handles t.tables.items };
}

/// Whether each table has no more places than this.
fn are_short(handles: u32, tables: &[Table]) -> bool
    ensures { result ≡ list_all (is_short handles) tables.now }
{
    tables.iter().all(|table| table.is_short(handles))
}

/// The table of a new process: without an entry, or with what it inherits of a parent.
#[tactic(auto, using(std::proofs::lemmas::List::get_or_read))]
fn new_table(alloc: Global, tables: &Vec<Table>, parent: Option<u32>) -> Result<Table, AllocError>
    requires { IfSome parent (λ from. from < length tables.now.items) }
    ensures { IfOk result (λ table. table ≡ new_table tables.now.items parent) }
{
    match parent {
        Some(from) => Table::inheriting(alloc, tables[from as usize].places()),
        None => Ok(Table::new(alloc)),
    }
}

impl Tables {
    /// Tables for at most `processes` process numbers, at most 65,536, and `handles` entries in each, at most 16,384.
    /// No number is given yet. Want of memory answers 8.
    pub fn new(alloc: Global, processes: u32, handles: u32) -> Result<Tables, Fault>
        requires few_processes { processes ≤ PROCESSES_MAX }
        requires few_handles { handles ≤ HANDLES_MAX }
        ensures ok { IfOk result (λ t. t ≡ record {
          process_limit = processes;
          handle_limit = handles;
          tables = [] ∷ [];
        }) }
        ensures err { IfErr result (λ fault. fault ≡ Memory) }
    {
        let mut tables = Vec::new(alloc);
        tables.push(Table::new(alloc))?;
        Ok(Tables {
            tables,
            processes,
            handles,
            alloc,
        })
    }

    /// Writes the tables behind some bytes, without their limits.
    pub fn write(&self, out: &mut Vec<u8>) -> Result<(), AllocError>
        ensures text { OnOk result (out.new.items ≡ out.old.items ++ tables_text self.now.tables) }
        ensures fits { OnOk result (TablesFit self.now) }
    {
        write_list(out, self.tables.as_slice())
    }

    /// Reads the tables of `given` process numbers, that of number 0 among them, for at most `processes` numbers and
    /// `handles` entries in each, from the front of what is left. [`TextFault::Value`] where there are more or fewer
    /// tables, or more places in one: with more tables than numbers, or more than 16,384 places, before any is read.
    pub fn read(
        alloc: Global,
        processes: u32,
        handles: u32,
        given: u32,
        from: &mut Cursor<'_>,
    ) -> Result<Tables, ReadFault>
        requires few_processes { processes ≤ PROCESSES_MAX }
        requires few_handles { handles ≤ HANDLES_MAX }
        requires some_given { 1 ≤ given }
        requires few_given { given ≤ processes + 1 }
        ensures { Gives (λ tables. tables) result (tables_at processes handles given from.old) from.new }
    {
        let tables = read_list::<Table>(alloc, from, given)?;
        if tables.len() != given as usize || !are_short(handles, tables.as_slice()) {
            return Err(ReadFault::Text(TextFault::Value));
        }
        Ok(Tables {
            tables,
            processes,
            handles,
            alloc,
        })
    }

    /// The next process number. 1450 where the numbers are used up.
    fn next_number(&self) -> Result<u32, Fault>
        ensures number { IfOk result (λ process. process ≡ length self.now.tables) }
        ensures room { OnOk result (length self.now.tables ≤ self.now.process_limit) }
        ensures limit { IfErr result (λ fault. fault ≡ Limit) }
        ensures used_up { OnErr result (length self.now.tables ≡ self.now.process_limit + 1) }
        // Whatever the tables are, as `place` says it.
        ensures bounded { IsBounded self.now.process_limit self.now.handle_limit self.now.tables }
    {
        let number = self.tables.len() as u32;
        if number > self.processes {
            return Err(Fault::Limit);
        }
        Ok(number)
    }

    /// Gives a process number a table: an empty one, or one that has just the inheritable entries of `parent`, with the
    /// same values, rights and flags. What stood at the number goes: the number is the next one, or that of a process
    /// that is gone.
    pub fn add_table(&mut self, process: u32, parent: Option<u32>) -> Result<(), AllocError>
        requires number { process ≤ length self.old.tables }
        requires limit { process ≤ self.old.process_limit }
        requires parent { IfSome parent (λ from. from < length self.old.tables) }
        ensures ok { OnOk result (self.new
            ≡ record self.old { tables = with_table self.old.tables process parent }) }
        ensures err { OnErr result (self.new ≡ self.old) }
        // Whatever the tables are, as `place` says it.
        ensures bounded { IsBounded self.old.process_limit self.old.handle_limit self.old.tables }
    {
        let table = new_table(self.alloc, &self.tables, parent)?;
        let at = process as usize;
        if at < self.tables.len() {
            self.tables[at] = table;
        } else {
            self.tables.push(table)?;
        }
        Ok(())
    }

    /// Gives the next process number, with an empty table. 1450 where the numbers are used up, and 8 for want of
    /// memory.
    pub fn add_process(&mut self) -> Result<u32, Fault>
        ensures number { IfOk result (λ process. process ≡ length self.old.tables) }
        ensures ok { OnOk result (self.new ≡ record self.old { tables = with_process self.old.tables }) }
        ensures limit { (result ≡ Err Limit) ↔ (length self.old.tables ≡ self.old.process_limit + 1) }
        ensures refusal { IfErr result (λ fault. (fault ≡ Limit) ⊎ (fault ≡ Memory)) }
        ensures err { OnErr result (self.new ≡ self.old) }
    {
        let number = self.next_number()?;
        self.add_table(number, None)?;
        Ok(number)
    }

    /// Gives the next process number, with a table that has just the inheritable entries of `from`, with the same
    /// values, rights and flags, so that they are inheritable in turn ([Handle inheritance]; that they stay inheritable
    /// is this profile's choice). 1450 where the numbers are used up, and 8 for want of memory.
    ///
    /// [Handle inheritance]: https://learn.microsoft.com/windows/win32/sysinfo/handle-inheritance
    pub fn copy_inheritable(&mut self, from: u32) -> Result<u32, Fault>
        requires { from < length self.old.tables }
        ensures number { IfOk result (λ process. process ≡ length self.old.tables) }
        ensures ok { OnOk result (self.new ≡ record self.old { tables = with_child self.old.tables from }) }
        ensures limit { (result ≡ Err Limit) ↔ (length self.old.tables ≡ self.old.process_limit + 1) }
        ensures refusal { IfErr result (λ fault. (fault ≡ Limit) ⊎ (fault ≡ Memory)) }
        ensures err { OnErr result (self.new ≡ self.old) }
        // Whatever the tables are, as `place` says it.
        ensures bounded { IsBounded self.old.process_limit self.old.handle_limit self.old.tables }
    {
        let number = self.next_number()?;
        self.add_table(number, Some(from))?;
        Ok(number)
    }

    /// Places an entry at the least value that the process doesn't use, and gives the value. 1450 where the process has
    /// as many entries as it may, and 8 for want of memory.
    #[inline]
    pub fn place(&mut self, process: u32, entry: Entry) -> Result<u32, Fault>
        requires { process < length self.old.tables }
        ensures value { IfOk result (λ value. value ≡ value_of (free_place (table_of self.old.tables process))) }
        ensures ok { OnOk result (self.new ≡ record self.old { tables = with_entry_of self.old.tables process entry }) }
        ensures room { OnOk result (entries_in (table_of self.old.tables process) < self.old.handle_limit) }
        ensures limit { (result ≡ Err Limit) ↔ (entries_in (table_of self.old.tables process) ≡ self.old.handle_limit) }
        ensures refusal { IfErr result (λ fault. (fault ≡ Limit) ⊎ (fault ≡ Memory)) }
        // A value that was given back is given again without memory.
        ensures reuses { IfErr result (λ fault. fault ≡ Memory → is_packed (table_of self.old.tables process) ≡ true) }
        ensures err { OnErr result (self.new ≡ self.old) }
        // Whatever the tables are: no more numbers and entries than their limits, and these in range.
        ensures bounded { IsBounded self.old.process_limit self.old.handle_limit self.old.tables }
    {
        match self.tables[process as usize].place(entry, self.handles) {
            Ok(value) => return Ok(value),
            Err(fault) => return Err(fault),
        }
    }

    /// How many tables there are, that of number 0 among them.
    pub fn given(&self) -> u32
        ensures { result ≡ length self.now.tables }
    {
        self.tables.len() as u32
    }

    /// Whether a process number is given.
    #[inline]
    pub fn is_given(&self, process: u32) -> bool
        ensures { result ≡ nat_lt process (length self.now.tables) }
    {
        (process as usize) < self.tables.len()
    }

    /// Whether a process has as many entries as it may, so that [`place`](Tables::place) answers 1450.
    #[inline(always)]
    #[tactic(auto, using(crate::proofs::LimitLaws::full_test, std::proofs::lemmas::List::get_or_read))]
    pub fn is_full(&self, process: u32) -> bool
        requires { process < length self.now.tables }
        ensures { IsTrue result ↔ (entries_in (table_of self.now.tables process) ≡ self.now.handle_limit) }
    {
        self.tables[process as usize].is_full(self.handles)
    }

    /// How many further entries a process may have.
    #[tactic(auto, using(std::proofs::lemmas::List::get_or_read))]
    pub fn left(&self, process: u32) -> u32
        requires { process < length self.now.tables }
        ensures { result ≡ self.now.handle_limit - entries_in (table_of self.now.tables process) }
    {
        self.handles - self.tables[process as usize].count()
    }

    /// The entry of a handle.
    #[inline]
    pub fn look(&self, process: u32, value: u32) -> Option<Entry>
        ensures { result ≡ entry_at (table_of self.now.tables process) value }
    {
        if self.is_given(process) {
            self.entry(process, value)
        } else {
            None
        }
    }

    /// The places of a table, in each of which an entry is or none.
    #[inline]
    pub fn places(&self, process: u32) -> &[Option<Entry>]
        requires { process < length self.now.tables }
        ensures { result.now ≡ table_of self.now.tables process }
    {
        self.tables[process as usize].places()
    }

    /// The entry of a handle, in the table of a process number that was given.
    #[inline]
    pub fn entry(&self, process: u32, value: u32) -> Option<Entry>
        requires { process < length self.now.tables }
        ensures { result ≡ entry_at (table_of self.now.tables process) value }
    {
        self.tables[process as usize].entry(value)
    }

    /// Removes the entry of a handle, and gives it. Where there is none nothing changes.
    #[inline]
    pub fn remove(&mut self, process: u32, value: u32) -> Option<Entry>
        ensures value { result ≡ entry_at (table_of self.old.tables process) value }
        ensures after { self.new ≡ record self.old { tables = without_entry_of self.old.tables process value } }
    {
        let at = process as usize;
        if at < self.tables.len() {
            self.tables[at].remove(value)
        } else {
            None
        }
    }

    /// Gives the entry of a handle other flags.
    pub fn set_flags(&mut self, process: u32, value: u32, flags: HandleFlags)
        requires { IsSome (entry_at (table_of self.old.tables process) value) }
        ensures { self.new ≡ record self.old { tables = with_flags_of self.old.tables process value flags } }
    {
        self.tables[process as usize].set_flags(value, flags);
    }

    /// The places of a process in rising order of their values, each with its entry or with none.
    pub fn entries(&self, process: u32) -> &[Option<Entry>]
        requires { process < length self.now.tables }
        ensures places { result.now ≡ table_of self.now.tables process }
        ensures at_most { length result.now ≤ HANDLES_MAX }
    {
        self.tables[process as usize].places()
    }

    /// Removes all entries of a process that ends. Its places as they were, each with its entry or with none.
    pub fn take_entries(&mut self, process: u32) -> Vec<Option<Entry>>
        requires { process < length self.old.tables }
        ensures places { result.items ≡ table_of self.old.tables process }
        ensures after { self.new ≡ record self.old { tables = without_entries self.old.tables process } }
    {
        let table = mem::replace(&mut self.tables[process as usize], Table::new(self.alloc));
        table.into_places()
    }
}
