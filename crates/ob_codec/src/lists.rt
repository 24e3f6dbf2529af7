ghost use Rattle.std.specs.Prelude.{◌≡◌, ◌++◌, ◌<◌, ◌≤◌, ◌^◌, length, IfOk, OnOk};
ghost use Rattle.ob_codec.specs.Reading.{Gives, items_at, list_at};
ghost use Rattle.ob_codec.specs.Spelling.{ListFits, list, string};

use crate::cursor::Cursor;
use crate::fault::{ReadFault, TextFault};
use crate::spelled::Spelled;
use std::alloc::{AllocError, Global};

/// Writes how many values there are, in four bytes, and the values. Where memory was wanting, part of it may stand
/// there.
pub fn write_list<T: Spelled>(out: &mut Vec<u8>, values: &[T]) -> Result<(), AllocError>
    requires { length values.now < 2 ^ 32 }
    ensures text { OnOk result (out.new.items ≡ out.old.items ++ list T.spell values.now) }
    ensures fits { OnOk result (ListFits T.Fits values.now) }
{
    (values.len() as u32).write(out)?;
    for value in values {
        value.write(out)?;
    }
    Ok(())
}

/// Reads so many values. No memory is asked for before a value is there, so that a count that lies asks for none.
fn read_items<T: Spelled + Drop>(
    alloc: Global,
    from: &mut Cursor<'_>,
    count: u32,
) -> Result<Vec<T>, ReadFault>
    ensures read { Gives (λ values. values.items) result (items_at T.read_at count from.old) from.new }
    ensures count { IfOk result (λ values. length values.items ≡ count) }
{
    let mut values = Vec::new(alloc);
    for _ in 0..count {
        let value = T::read(alloc, from)?;
        values.push(value)?;
    }
    Ok(values)
}

/// Reads a list that [`write_list`] wrote, of no more than `most` values: [`TextFault::Value`] where its count is
/// greater, before any of them is read. It asks for no more memory than the values that are there take.
#[tactic(auto, unfolding(crate::specs::Reading::list_at))]
pub fn read_list<T: Spelled + Drop>(
    alloc: Global,
    from: &mut Cursor<'_>,
    most: u32,
) -> Result<Vec<T>, ReadFault>
    ensures read { Gives (λ values. values.items) result (list_at most T.read_at from.old) from.new }
    ensures few { IfOk result (λ values. length values.items ≤ most) }
{
    let count = from.four()?;
    if count > most {
        return Err(ReadFault::Text(TextFault::Value));
    }
    read_items(alloc, from, count)
}

/// Writes how many bytes there are, in four bytes, and the bytes. [`Cursor::string`] reads them.
pub fn write_string(out: &mut Vec<u8>, bytes: &[u8]) -> Result<(), AllocError>
    requires { length bytes.now < 2 ^ 32 }
    ensures { OnOk result (out.new.items ≡ out.old.items ++ string bytes.now) }
{
    (bytes.len() as u32).write(out)?;
    out.extend_from_slice(bytes)
}
