ghost use Rattle.std.specs.Prelude.{◌≡◌, [], ◌∷◌, length};
ghost use Rattle.std.specs.Arc.{arc_value};
ghost use Rattle.pin_core.specs.Shapes.{IsWithinLimits};
ghost use Rattle.pin_words.specs.Places.{words_of};
ghost use Rattle.pin_words.specs.Plays.{spent};
ghost use Rattle.pin_words.specs.Views.{IsKeepers, keeper_of};

use crate::pin_keeper::{PinKeeper, Reclaim};
use crate::pins::Words;
use crate::places::{descr_place, place_of};
use crate::plays::{Apart, Blank, Closes, Gives, Looks, Publishing, Reclaiming, Storing, Together};
use crate::reader::Reader;
use crate::view::View;
use atomic_table::{Badge, Seat};
use ob_rights::Fault;
use pin_core::{CLOSING_BIT, Descr, LIVE_BIT, Phase, Shape, Slot, Word};
use std::alloc::Global;
use std::marker::Model;
use std::mem;
use std::sync::Arc;

/// Who publishes, closes and reclaims slots. There is one for each [`Pins`](crate::Pins).
#[derive(Drop)]
pub struct Keeper {
    words: Arc<Words, Global>,
    shape: Shape,
    seat: Seat<(), View>,
    // A seat that knows nothing, to stand in for a reader's while that is joined.
    spare: Badge<View>,
    slots: Vec<Slot>,
    ghost keyed: { (arc_value words).shared.key.shape ≡ shape },
    ghost wide: { (arc_value words).shared.table_id.words ≡ words_of shape.slots },
    ghost within: { IsWithinLimits shape },
    ghost seated: { seat.table_id ≡ (arc_value words).shared.table_id },
    ghost keeps: { IsKeepers seat.me },
    ghost spares: { spare.views ≡ spent ∷ [] },
    ghost shaped: { (keeper_of seat.me.0).shape ≡ shape },
    ghost knows: { (keeper_of seat.me.0).slots ≡ slots.items },
    ghost length_is: { length slots.items ≡ shape.slots },
}

impl Model for Keeper {
    ghost use Rattle.pin_words.specs.Seats.{KeeperSeat};
    ghost use Rattle.pin_words.specs.Views.{keeper_of};

    ghost Value = { KeeperSeat };

    ghost view = { λ k. record {
      table = record { id = k.seat.table_id; shape = k.shape };
      view = keeper_of k.seat.me.0;
    } };
}

impl Keeper {
    ghost use Rattle.std.specs.Prelude.{◌≡◌, ◌<◌, ◌≤◌, [], true, All, length, vec_len, IfErr, IfOk, IfSome};
    ghost use Rattle.std.specs.Prelude.{IsNone, OnSome};
    ghost use Rattle.std.specs.Arc.{arc_value};
    ghost use Rattle.ob_rights.specs.declared.fault.Fault.TheVariants.{Memory};
    ghost use Rattle.pin_core.specs.declared.id.Id.{Id};
    ghost use Rattle.pin_core.specs.declared.word.Phase.TheVariants.{Free, Live, Closing};
    ghost use Rattle.pin_core.specs.Descrs.{IsGiven};
    ghost use Rattle.pin_core.specs.Holds.{tally, same_id};
    ghost use Rattle.pin_core.specs.Worlds.{slot_of};
    ghost use Rattle.pin_core.specs.Safety.{may_be_held};
    ghost use Rattle.pin_core.specs.Shapes.{IsWithinLimits};
    ghost use Rattle.pin_words.specs.Places.{words_of};
    ghost use Rattle.pin_words.specs.Views.{IsKeepers, id_of, keeper_of, keeper_stored, keeper_published};
    ghost use Rattle.pin_words.specs.Views.{keeper_closed, keeper_gave, reader_given};
    ghost use Rattle.pin_words.specs.Plays.{Show};
    ghost use Rattle.pin_words.specs.Tries.{ReclaimsByLook, Met};

    #[tactic(auto, using(crate::proofs::Reseated::blanks, crate::proofs::Apart::some_words))]
    pub(crate) fn of_parts(
        words: Arc<Words, Global>,
        shape: Shape,
        mut seat: Seat<(), View>,
        slots: Vec<Slot>,
    ) -> Keeper
        requires keyed { (arc_value words).shared.key.shape ≡ shape }
        requires wide { (arc_value words).shared.table_id.words ≡ words_of shape.slots }
        requires within { IsWithinLimits shape }
        requires seated { seat.table_id ≡ (arc_value words).shared.table_id }
        requires keeps { IsKeepers seat.me }
        requires shaped { (keeper_of seat.me.0).shape ≡ shape }
        requires knows { (keeper_of seat.me.0).slots ≡ slots.items }
        requires length_is { length slots.items ≡ shape.slots }
        ensures { result ≡ record { table = record { id = seat.table_id; shape = shape }; view = keeper_of seat.me.0 } }
    {
        let spare = words.shared.split_seat::<Blank>(&mut seat).into_badge();
        Keeper {
            words,
            shape,
            seat,
            spare,
            slots,
        }
    }

    /// How many slots there are.
    pub fn slots(&self) -> u32
        ensures slots { result ≡ self.now.view.shape.slots }
        ensures shape { self.now.table.shape ≡ self.now.view.shape }
        ensures words { self.now.table.id.words ≡ words_of result }
    {
        self.shape.slots
    }

    /// The readers and the keeper of one table have one shape.
    pub fn same_shape(&self, reader: &Reader)
        requires { reader.now.table ≡ self.now.table }
        ensures { reader.now.view.shape ≡ self.now.view.shape }
    {
        let _slots = self.shape.slots;
        reader.shape();
    }

    /// The phase of a slot.
    pub fn phase(&self, slot: u32) -> Phase
        requires { slot < self.now.view.shape.slots }
        ensures { result ≡ (slot_of self.now.view.slots slot).phase }
    {
        self.slots[slot as usize].phase
    }

    /// The generation of a slot, from 1.
    pub fn generation(&self, slot: u32) -> u32
        requires { slot < self.now.view.shape.slots }
        ensures { result ≡ (slot_of self.now.view.slots slot).generation }
    {
        self.slots[slot as usize].generation
    }

    /// Stores the descriptor of a free slot, by one store.
    #[inline(always)]
    pub fn store_descr(&mut self, slot: u32, descr: Descr)
        requires slot { slot < self.old.view.shape.slots }
        requires free { (slot_of self.old.view.slots slot).phase ≡ Free }
        requires given { IsGiven descr }
        ensures view { self.new.view ≡ keeper_stored self.old.view slot descr }
        ensures table { self.new.table ≡ self.old.table }
    {
        self.words
            .shared
            .store::<Storing>(&mut self.seat, descr_place(slot), descr.encode());
        self.slots[slot as usize].descr = descr;
    }

    /// Publishes a free slot with its descriptor, so that it is live, by one atomic or.
    #[inline(always)]
    pub fn publish(&mut self, slot: u32)
        requires slot { slot < self.old.view.shape.slots }
        requires free { (slot_of self.old.view.slots slot).phase ≡ Free }
        ensures view { self.new.view ≡ keeper_published self.old.view slot }
        ensures table { self.new.table ≡ self.old.table }
    {
        self.words
            .shared
            .fetch_or::<Publishing>(&mut self.seat, place_of(slot), LIVE_BIT);
        self.slots[slot as usize].phase = Phase::Live;
    }

    /// Gives a live slot up, so that it is closing, by one atomic or, which leaves the pins.
    pub fn close_slot(&mut self, slot: u32)
        requires slot { slot < self.old.view.shape.slots }
        requires live { (slot_of self.old.view.slots slot).phase ≡ Live }
        ensures view { self.new.view ≡ keeper_closed self.old.view slot }
        ensures table { self.new.table ≡ self.old.table }
    {
        self.words
            .shared
            .fetch_or::<Closes>(&mut self.seat, place_of(slot), CLOSING_BIT);
        self.slots[slot as usize].phase = Phase::Closing;
    }

    /// Takes a closing slot back by one exchange, which is also a look: [`Reclaim::Held`] with the number of pins
    /// exactly where the word that it found has some.
    pub fn reclaim(&mut self, slot: u32) -> Reclaim
        requires slot { slot < self.old.view.shape.slots }
        requires closing { (slot_of self.old.view.slots slot).phase ≡ Closing }
        ensures reclaims { ReclaimsByLook self.old.view slot result self.new.view }
        ensures table { self.new.table ≡ self.old.table }
    {
        let was = self.slots[slot as usize];
        let next = was.reclaimed(self.shape.max_gen);
        let expected = Word {
            generation: was.generation,
            phase: Phase::Closing,
            pins: 0,
        };
        let becomes = Word {
            generation: next.generation,
            phase: next.phase,
            pins: 0,
        };
        let found = self.words.shared.compare_exchange::<Reclaiming>(
            &mut self.seat,
            place_of(slot),
            expected.encode(),
            becomes.encode(),
        );
        let pins = Word::decode(found).pins;
        if pins > 0 {
            return Reclaim::Held { pins };
        }
        // (its descriptor stays)
        let kept = &mut self.slots[slot as usize];
        kept.generation = next.generation;
        kept.phase = next.phase;
        if was.generation < self.shape.max_gen {
            Reclaim::Freed
        } else {
            Reclaim::Retired
        }
    }

    /// One look at the slot for a reader of the same pins, whose seat is joined to the keeper's meanwhile: what the
    /// reader holds there is the keeper's present slot, and the notes are of what was published. Beside the look there
    /// are two more loads, by which the seats are joined and parted.
    pub fn meet(&mut self, reader: &mut Reader, slot: u32)
        requires slot { slot < self.old.view.shape.slots }
        requires same { reader.old.table ≡ self.old.table }
        ensures look { Met self.old.view reader.old.view slot reader.new.view }
        ensures held { (id : Id) → 0 < tally (same_id id) reader.old.view.held → id.slot ≡ slot
            → (id ≡ id_of self.old.view.slots slot)
            × (may_be_held (slot_of self.old.view.slots slot).phase ≡ true) }
        ensures noted { (id : Id) → 0 < tally (same_id id) reader.old.view.held → id.slot ≡ slot
            → Show id (slot_of self.old.view.slots slot).descr reader.old.view.notes }
        ensures shape { reader.old.view.shape ≡ self.old.view.shape }
        ensures view { self.new.view ≡ self.old.view }
        ensures table { (self.new.table ≡ self.old.table) × (reader.new.table ≡ reader.old.table) }
    {
        let blank = mem::replace(&mut self.spare, Badge::blank()).into_seat();
        let seat = mem::replace(&mut reader.seat, blank);
        self.words
            .shared
            .join_seat::<Together>(&mut self.seat, seat);
        self.words
            .shared
            .load::<Looks>(&mut self.seat, place_of(slot));
        let parted = self.words.shared.split_seat::<Apart>(&mut self.seat);
        self.spare = mem::replace(&mut reader.seat, parted).into_badge();
    }

    /// A further reader, of the next number, which holds nothing. [`None`] where 2^63 readers are.
    pub fn reader(&mut self) -> Option<Reader>
        ensures given { OnSome result (self.new.view ≡ keeper_gave self.old.view) }
        ensures reader { IfSome result (λ r. (r.view ≡ reader_given self.old.view) × (r.table ≡ self.old.table)) }
        ensures none { IsNone result → self.new.view ≡ self.old.view }
        ensures table { self.new.table ≡ self.old.table }
    {
        let Ok(words) = Arc::try_clone(&self.words) else {
            return None;
        };
        Some(self.give(words))
    }

    /// `count` readers, or one where that is 0: `first`, and new ones of the next numbers.
    ///
    /// [`Fault::Memory`] (8) where memory ran out or 2^63 readers are; then the first is gone too.
    pub fn readers(
        &mut self,
        alloc: Global,
        first: Reader,
        count: usize,
    ) -> Result<Vec<Reader>, Fault>
        requires same { first.table ≡ self.old.table }
        requires free { first.view.held ≡ [] }
        ensures count { IfOk result (λ readers. 1 ≤ count → vec_len readers ≡ count) }
        ensures one { IfOk result (λ readers. count ≡ 0 → vec_len readers ≡ 1) }
        ensures each { IfOk result (λ readers. All (λ r. (r.table ≡ self.old.table) × (r.view.held ≡ []))
            readers.items) }
        ensures memory { IfErr result (λ fault. fault ≡ Memory) }
        ensures slots { self.new.view.slots ≡ self.old.view.slots }
        ensures published { self.new.view.published ≡ self.old.view.published }
        ensures shape { self.new.view.shape ≡ self.old.view.shape }
        ensures table { self.new.table ≡ self.old.table }
    {
        let mut readers = Vec::new(alloc);
        readers.push(first)?;
        for number in 1..count {
            // It names the place in the loop, of which the invariant speaks.
            let _number = number;
            let Some(reader) = self.reader() else {
                return Err(Fault::Memory);
            };
            readers.push(reader)?;
        }
        Ok(readers)
    }

    pub(crate) fn give(&mut self, words: Arc<Words, Global>) -> Reader
        requires keyed { (arc_value words).shared.key.shape ≡ self.old.table.shape }
        requires same { (arc_value words).shared.table_id ≡ self.old.table.id }
        ensures view { self.new.view ≡ keeper_gave self.old.view }
        ensures reader { result.view ≡ reader_given self.old.view }
        ensures table { (self.new.table ≡ self.old.table) × (result.table ≡ self.old.table) }
    {
        let seat = self.words.shared.split_seat::<Gives>(&mut self.seat);
        Reader::of_parts(words, self.shape, seat)
    }
}

impl PinKeeper for Keeper {
    ghost use Rattle.pin_words.specs.Keepers.{state_of, ReclaimsFound};

    ghost kept = { state_of };

    ghost reclaims = { ReclaimsFound };

    fn phase(&self, slot: u32) -> Phase {
        Keeper::phase(self, slot)
    }

    fn generation(&self, slot: u32) -> u32 {
        Keeper::generation(self, slot)
    }

    #[inline(always)]
    fn store_descr(&mut self, slot: u32, descr: Descr) {
        Keeper::store_descr(self, slot, descr);
    }

    #[inline(always)]
    fn publish(&mut self, slot: u32) {
        Keeper::publish(self, slot);
    }

    fn close_slot(&mut self, slot: u32) {
        Keeper::close_slot(self, slot);
    }

    fn reclaim(&mut self, slot: u32) -> Reclaim {
        Keeper::reclaim(self, slot)
    }
}
