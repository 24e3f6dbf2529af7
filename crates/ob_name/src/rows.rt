ghost use Rattle.std.specs.Prelude.{◌≡◌};
ghost use Rattle.std.specs.Iterator.{YieldsFirstBy, item_count};
ghost use Rattle.ob_name.specs.Order.{rows_of};
ghost use Rattle.ob_name.specs.Refs.{row_at};

use crate::entered::Entered;
use crate::name::NameRef;
use crate::owned::Name;
use crate::places::first_row;
use indexmap::IndexMap;
use pin_core::Id;
use std::marker::Model;

/// The names of a directory with their Ids, in the order of entry: those that are left of a walk.
///
/// [`Directory::rows`] makes it. A walk over all rows takes a time that grows with their number.
///
/// [`Directory::rows`]: crate::Directory::rows
#[derive(Drop)]
pub struct Rows<'a> {
    ids: &'a IndexMap<Name, Entered>,
    order: &'a Vec<usize>,
    place: usize,
}

impl<'a> Model for Rows<'a> {
    ghost use Rattle.std.specs.Prelude.{◌-◌, length};
    ghost use Rattle.ob_name.specs.Listing as listing;
    ghost use Rattle.ob_name.specs.Order.{row_on, rows_between};

    ghost Value = { listing.Rows };

    ghost view = { λ r. rows_between (row_on r.ids.now.entries r.order.now.items) r.place
        (length r.order.now.items - r.place) };
}

impl<'a> Rows<'a> {
    pub(crate) fn new(ids: &'a IndexMap<Name, Entered>, order: &'a Vec<usize>) -> Rows<'a>
        ensures { result ≡ rows_of ids.now.entries order.now.items }
    {
        Rows {
            ids,
            order,
            place: 0,
        }
    }
}

impl<'a> Iterator for Rows<'a> {
    type Item = (NameRef<'a>, Id);

    ghost next_gives = { YieldsFirstBy row_at (λ rows. rows) };

    ghost remaining = { item_count (λ rows. rows) };

    fn next(&mut self) -> Option<(NameRef<'a>, Id)> {
        match first_row(self.ids, self.order, self.place) {
            Some((place, row)) => {
                self.place = place;
                Some(row)
            }
            None => None,
        }
    }
}
