ghost use Rattle.std.specs.Prelude.{◌≡◌, ◌<◌, IfSome, IsNone, None, OnSome, Some, slice_index_or};
ghost use Rattle.pin_core.specs.Holds.{tally, same_id};
ghost use Rattle.ob_store.specs.Giving.{given_by, with_next};
ghost use Rattle.ob_store.specs.Meetings.{IsFound, IsMet};

use crate::objects::Objects;
use crate::store::Store;
use pin_core::Id;
use pin_words::{Keeper, Reader};

impl Objects<Keeper> {
    /// One look at a slot for a reader of the same pins.
    pub fn meet(&mut self, reader: &mut Reader, slot: u32)
        requires slot { slot < self.old.keeper.shape.slots }
        requires same { self.old.keeper.table ≡ Some reader.old.table }
        ensures look { IsMet self.old.keeper reader.old.view slot reader.new.view }
        ensures same { self.new ≡ self.old }
        ensures table { reader.new.table ≡ reader.old.table }
    {
        self.keeper.meet(reader, slot);
    }

    /// The keeper and a reader of the same pins have one shape.
    pub fn same_shape(&self, reader: &Reader)
        requires { self.now.keeper.table ≡ Some reader.now.table }
        ensures { reader.now.view.shape ≡ self.now.keeper.shape }
    {
        self.keeper.same_shape(reader);
    }

    /// One look at the slot of an Id that the reader holds, after which the object of the Id is known to be there.
    #[tactic(auto, using(crate::proofs::MeetingLaws::held_found))]
    pub fn meet_held(&mut self, reader: &mut Reader, id: Id)
        requires held { 0 < tally (same_id id) reader.old.view.held }
        requires same { self.old.keeper.table ≡ Some reader.old.table }
        ensures found { IsFound id reader.old.view (slice_index_or self.old.objects id.slot None) }
        ensures look { IsMet self.old.keeper reader.old.view id.slot reader.new.view }
        ensures same { self.new ≡ self.old }
        ensures table { reader.new.table ≡ reader.old.table }
    {
        // Both tell the proof that the slot is one of the keeper's.
        self.keeper.same_shape(reader);
        let slot = reader.slot_of_held(id);
        self.keeper.meet(reader, slot);
    }

    /// A further reader of the same pins, which holds nothing. [`None`] where 2^63 readers are.
    pub fn reader(&mut self) -> Option<Reader>
        ensures reader { IfSome result (λ r. (r.view ≡ given_by self.old.keeper)
            × (self.old.keeper.table ≡ Some r.table)) }
        ensures given { OnSome result (self.new ≡ record self.old { keeper = with_next self.old.keeper }) }
        ensures none { IsNone result → self.new ≡ self.old }
    {
        self.keeper.reader()
    }
}

impl Store<Keeper> {
    /// One look at a slot for a reader of the same pins.
    pub fn meet(&mut self, reader: &mut Reader, slot: u32)
        requires slot { slot < self.old.state.limits.slots }
        requires same { self.old.keeper.table ≡ Some reader.old.table }
        ensures look { IsMet self.old.keeper reader.old.view slot reader.new.view }
        ensures same { self.new ≡ self.old }
        ensures table { reader.new.table ≡ reader.old.table }
    {
        self.parts.objects.meet(reader, slot);
    }

    /// The keeper and a reader of the same pins have one shape.
    pub fn same_shape(&self, reader: &Reader)
        requires { self.now.keeper.table ≡ Some reader.now.table }
        ensures { reader.now.view.shape ≡ self.now.keeper.shape }
    {
        self.parts.objects.same_shape(reader);
    }

    /// One look at the slot of an Id that the reader holds, after which the object of the Id is known to be there.
    pub fn meet_held(&mut self, reader: &mut Reader, id: Id)
        requires held { 0 < tally (same_id id) reader.old.view.held }
        requires same { self.old.keeper.table ≡ Some reader.old.table }
        ensures found { IsFound id reader.old.view (slice_index_or self.old.state.objects id.slot None) }
        ensures look { IsMet self.old.keeper reader.old.view id.slot reader.new.view }
        ensures same { self.new ≡ self.old }
        ensures table { reader.new.table ≡ reader.old.table }
    {
        self.parts.objects.meet_held(reader, id);
    }

    /// A further reader of the same pins, which holds nothing. [`None`] where 2^63 readers are.
    pub fn reader(&mut self) -> Option<Reader>
        ensures reader { IfSome result (λ r. (r.view ≡ given_by self.old.keeper)
            × (self.old.keeper.table ≡ Some r.table)) }
        ensures given { OnSome result (self.new ≡ record self.old { keeper = with_next self.old.keeper }) }
        ensures none { IsNone result → self.new ≡ self.old }
    {
        self.parts.objects.reader()
    }
}
