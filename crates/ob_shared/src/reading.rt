ghost use Rattle.std.specs.Prelude.{◌≡◌, ◌<◌};
ghost use Rattle.ob_shared.specs.Members.{Pins, Shows, Unpins};

use crate::shared::Shared;
use ob_manager::Card;
use pin_core::{Descr, Id};
use pin_words::{PinFault, Reader};
use std::sync::Wait;

/// Pins an object, and reads its descriptor.
pub(crate) fn pin_descr<R: Wait>(rt: &R, reader: &mut Reader, id: Id) -> Result<Descr, PinFault>
    ensures pins { Pins reader.old.view id result reader.new.view }
    ensures table { reader.new.table ≡ reader.old.table }
{
    reader.pin(rt, id)?;
    Ok(reader.descr(id))
}

/// Lets a copy of an Id go, and answers whether it was held.
pub(crate) fn unpin(reader: &mut Reader, id: Id) -> bool
    ensures unpins { Unpins reader.old.view id result reader.new.view }
    ensures table { reader.new.table ≡ reader.old.table }
{
    if !reader.holds(id) {
        return false;
    }
    reader.release(id);
    true
}

/// The card of a held object.
pub(crate) fn show<R: Wait>(rt: &R, shared: &Shared, reader: &Reader, id: Id) -> Option<Card>
    ensures { Shows reader.now.view id result }
{
    if !reader.holds(id) {
        return None;
    }
    shared.inspect(rt, reader, id)
}
