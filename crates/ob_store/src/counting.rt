ghost use Rattle.std.specs.Prelude.{◌≡◌, Err, IsTrue, Ok, false, length};
ghost use Rattle.ob_codec.specs.declared.fault.TextFault.TheVariants.{Value};
ghost use Rattle.ob_store.specs.Counting.{counting, counting_all, counting_in};
ghost use Rattle.ob_store.specs.SavedWaits.{with_blocks};

use crate::object_headers::ObjectHeaders;
use ob_tables::{Entry, Tables};
use ob_waits::Waits;

/// Counts a handle where the place of a table has an entry, and answers whether the object that it names is there.
fn count_place(headers: &mut ObjectHeaders, place: Option<Entry>) -> bool
    ensures counted { IsTrue result → counting headers.old place ≡ Ok headers.new }
    ensures refused { result ≡ false → counting headers.old place ≡ Err Value }
{
    match place {
        Some(entry) => headers.count_handle(entry.id),
        None => true,
    }
}

/// Counts the handles of a table, and answers whether each names an object that is there.
fn count_table(headers: &mut ObjectHeaders, places: &[Option<Entry>]) -> bool
    ensures counted { IsTrue result → counting_in headers.old places.now ≡ Ok headers.new }
    ensures refused { result ≡ false → counting_in headers.old places.now ≡ Err Value }
{
    for place in places {
        if !count_place(headers, *place) {
            return false;
        }
    }
    true
}

/// Counts the handles of all tables, and answers whether each names an object that is there.
pub(crate) fn count_tables(headers: &mut ObjectHeaders, tables: &Tables) -> bool
    ensures counted { IsTrue result → counting_all headers.old tables.now.tables ≡ Ok headers.new }
    ensures refused { result ≡ false → counting_all headers.old tables.now.tables ≡ Err Value }
{
    for process in 0..tables.given() {
        if !count_table(headers, tables.entries(process)) {
            return false;
        }
    }
    true
}

/// Counts the blocks of all objects.
pub(crate) fn count_blocks(headers: &mut ObjectHeaders, waits: &Waits)
    requires { length headers.old.seen.blocks ≡ length headers.old.objects }
    ensures { headers.new ≡ with_blocks waits.now.waits headers.old }
{
    for slot in 0..headers.len() {
        headers.count_blocks(slot, waits);
    }
}
