ghost use Rattle.std.specs.Prelude.{◌≡◌, ◌<◌, IfSome, IsNone, OnSome, Some};
ghost use Rattle.pin_core.specs.Holds.{tally, same_id};
ghost use Rattle.pin_words.specs.Plays.{Show};
ghost use Rattle.ob_store.specs.Giving.{given_by, with_next};
ghost use Rattle.ob_store.specs.Meetings.{IsMet};
ghost use Rattle.ob_store.specs.State.{shape_of};
ghost use Rattle.ob_manager.specs.Counting.{card};

use crate::card::Card;
use crate::counting;
use crate::manager::Manager;
use pin_core::Id;
use pin_words::{Keeper, Reader};

impl Manager<Keeper> {
    /// Tells a proof that a reader of the same pins sees as many slots, pins and generations as the limits say.
    pub fn same_shape(&self, reader: &Reader)
        requires { self.now.keeper.table ≡ Some reader.now.table }
        ensures { reader.now.view.shape ≡ shape_of self.now.state.limits }
    {
        self.store.kept();
        self.store.same_shape(reader);
    }

    /// One look at a slot for a reader of the same pins: what the reader holds there is the keeper's present slot.
    pub fn meet(&mut self, reader: &mut Reader, slot: u32)
        requires slot { slot < self.old.state.limits.slots }
        requires same { self.old.keeper.table ≡ Some reader.old.table }
        ensures look { IsMet self.old.keeper reader.old.view slot reader.new.view }
        ensures same { self.new ≡ self.old }
        ensures table { reader.new.table ≡ reader.old.table }
    {
        self.store.meet(reader, slot);
    }

    /// What the object of an Id that the reader holds was created as, which is what [`card`](Manager::card) answers: an
    /// object that somebody holds is there, though it may have ended. A descriptor that the reader has read under its
    /// pin is the same as the card's. It takes one look at the slot.
    pub fn inspect(&mut self, reader: &mut Reader, id: Id) -> Card
        requires held { 0 < tally (same_id id) reader.old.view.held }
        requires same { self.old.keeper.table ≡ Some reader.old.table }
        ensures card { card self.old.state id ≡ Some result }
        ensures id { result.id ≡ id }
        ensures note { Show id result.descr reader.old.view.notes }
        ensures look { IsMet self.old.keeper reader.old.view id.slot reader.new.view }
        ensures same { self.new ≡ self.old }
        ensures table { reader.new.table ≡ reader.old.table }
    {
        self.store.meet_held(reader, id);
        match counting::card(&self.store, id) {
            Some(card) => card,
            None => unreachable!(),
        }
    }

    /// A further reader of the same pins, which holds nothing. [`None`] where 2^63 readers are.
    pub fn reader(&mut self) -> Option<Reader>
        ensures reader { IfSome result (λ r. (r.view ≡ given_by self.old.keeper)
            × (self.old.keeper.table ≡ Some r.table)) }
        ensures given { OnSome result (self.new ≡ record self.old { keeper = with_next self.old.keeper }) }
        ensures none { IsNone result → self.new ≡ self.old }
    {
        self.store.reader()
    }
}
