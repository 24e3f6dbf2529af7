// Handle tables as bytes: the places of each, from the first on.
ghost use Rattle.ob_tables.specs.Spelling.{EntryFits, TableFits, entry_at, entry_text, table_at, table_text};
ghost use Rattle.ob_tables.specs.SpellingLaws.{entry_codec, table_codec};

use crate::entry::Entry;
use crate::table::{HANDLES_MAX, Table};
use ob_codec::{Cursor, ReadFault, Spelled, read_list, write_list};
use ob_rights::{HandleFlags, Rights};
use pin_core::Id;
use std::alloc::{AllocError, Global};

impl Spelled for Entry {
    ghost spell = { entry_text };

    ghost read_at = { entry_at };

    ghost Fits = { EntryFits };

    fn write(&self, out: &mut Vec<u8>) -> Result<(), AllocError> {
        self.id.write(out)?;
        self.rights.write(out)?;
        self.flags.write(out)
    }

    fn read(alloc: Global, from: &mut Cursor<'_>) -> Result<Entry, ReadFault> {
        let id = Id::read(alloc, from)?;
        let rights = Rights::read(alloc, from)?;
        let flags = HandleFlags::read(alloc, from)?;
        Ok(Entry { id, rights, flags })
    }

    ghost codec = { entry_codec };
}

impl Spelled for Table {
    ghost spell = { table_text };

    ghost read_at = { table_at };

    ghost Fits = { TableFits };

    fn write(&self, out: &mut Vec<u8>) -> Result<(), AllocError> {
        write_list(out, self.places())
    }

    fn read(alloc: Global, from: &mut Cursor<'_>) -> Result<Table, ReadFault> {
        let places = read_list::<Option<Entry>>(alloc, from, HANDLES_MAX)?;
        Ok(Table::of_places(alloc, places)?)
    }

    ghost codec = { table_codec };
}
