//! The directory of names.
ghost use Rattle.std.specs.Prelude.{◌≡◌, is_some, length, slice_get};
ghost use Rattle.ob_name.specs.Keys.{space_number};
ghost use Rattle.ob_name.specs.Refs.{namespace_of, row_at};
ghost use Rattle.ob_store.specs.Directory.{directory_of};
ghost use Rattle.ob_manager.specs.Counting.{card, name_held};
ghost use Rattle.obman_c.specs.Listing.{NameTold, RowTold, RowTells};
ghost use Rattle.obman_c.specs.Pinning.{id_at};

use crate::pinning::id_at;
use crate::status::NO_MORE;
use crate::values::{Object, object_of};
use ob_name::{NameRef, Space};
use ob_rights::{Fault, code_of};
use obman_c_base::{ManagerOwner, SUCCESS, TOO_SMALL};
use pin_core::Id;

/// A row of the directory, but for its name (`om_row`).
#[repr(C)]
#[derive(Clone, Copy)]
pub struct Row {
    /// The object.
    pub object: Object,
    /// The session of the namespace; 0 for the global one.
    pub session: u32,
    /// How many bytes the name has without its prefix, at most 260.
    pub length: u32,
}

/// [`Manager::directory_len`](ob_manager::Manager::directory_len).
#[unsafe(no_mangle)]
pub extern "C" fn om_directory_len(owner: &mut ManagerOwner) -> usize
    ensures value { result ≡ length (directory_of owner.old.value.manager.state) }
    ensures same { owner.new.value ≡ owner.old.value }
{
    owner.lend().manager.directory_len()
}

/// [`Manager::directory_at`](ob_manager::Manager::directory_at): 0, 259 behind the last row, or 122 where the name
/// doesn't fit; the row then says how long it is. A loop over all places is linear.
#[unsafe(no_mangle)]
pub extern "C" fn om_directory_at(
    owner: &mut ManagerOwner,
    at: usize,
    name: &mut [u8],
    row: &mut Row,
) -> u32
    ensures row { RowTold (slice_get (directory_of owner.old.value.manager.state) at) result row.old row.new
        name.old name.new }
    ensures same { owner.new.value ≡ owner.old.value }
{
    let owned = owner.lend();
    owned.manager.close_holes();
    match owned.manager.directory_at(at) {
        Some((found, id)) => tell_row(found, id, name, row),
        None => NO_MORE,
    }
}

/// [`Manager::name_of`](ob_manager::Manager::name_of): 0, also where the object has no name, 6 where there is no such
/// object, or 122 where the name doesn't fit; the row then says how long it is.
#[unsafe(no_mangle)]
pub extern "C" fn om_name_of(
    owner: &mut ManagerOwner,
    slot: u32,
    generation: u32,
    name: &mut [u8],
    row: &mut Row,
) -> u32
    ensures row { NameTold (is_some (card owner.old.value.manager.state (id_at slot generation)))
        (id_at slot generation) (name_held owner.old.value.manager.state (id_at slot generation)) result
        row.old row.new name.old name.new }
    ensures same { owner.new.value ≡ owner.old.value }
{
    let id = id_at(slot, generation);
    let held = owner.lend();
    if held.manager.card(id).is_none() {
        return code_of(Fault::Handle);
    }
    match held.manager.name_of(id) {
        Some(found) => tell_row(found, id, name, row),
        None => {
            *row = Row {
                object: object_of(id),
                session: 0,
                length: 0,
            };
            SUCCESS
        }
    }
}

/// Tells of a name and its object.
fn tell_row(found: NameRef<'_>, id: Id, name: &mut [u8], row: &mut Row) -> u32
    ensures { RowTells (row_at (found.entry, id)) result row.new name.old name.new }
{
    let length = found.base.len();
    *row = Row {
        object: object_of(id),
        session: session_of(found.space),
        length: length as u32,
    };
    if length > name.len() {
        return TOO_SMALL;
    }
    name[..length].copy_from_slice(found.base);
    SUCCESS
}

/// The session of a namespace, 0 for the global one.
fn session_of(space: Space) -> u32
    ensures { result ≡ space_number (namespace_of space) }
{
    match space {
        Space::Global => 0,
        Space::Session(session) => session.number,
    }
}
