ghost use Rattle.std.specs.Prelude.{◌≡◌, ◌<◌, ◌↔◌, false, length, is_some, IfSome, IsTrue};
ghost use Rattle.std.specs.List.{remove};
ghost use Rattle.std.specs.Arc.{arc_value};
ghost use Rattle.pin_core.specs.declared.id.Id.{Id};
ghost use Rattle.pin_core.specs.Holds.{tally, drop_last, same_id};
ghost use Rattle.pin_core.specs.Shapes.{IsWithinLimits};
ghost use Rattle.pin_words.specs.Places.{words_of};
ghost use Rattle.pin_words.specs.Views.{IsReaders, reader_of};

use crate::fault::{PinFault, Verdict, has_pin_free, judge_found};
use crate::pins::Words;
use crate::places::{descr_place, place_of};
use crate::plays::{Looks, Noting, Pinning, Releasing};
use crate::view::View;
use arrayvec::ArrayVec;
use atomic_table::Seat;
use pin_core::{Descr, Id, Shape, Word, same_id};
use std::alloc::Global;
use std::hint::spin_loop;
use std::marker::Model;
use std::sync::{Arc, Wait};

// Where the last copy of the Id stands.
#[inline(always)]
fn found_at(held: &[Id], id: Id) -> Option<usize>
    ensures found { IsTrue (is_some result) ↔ (0 < tally (same_id id) held.now) }
    ensures within { IfSome result (λ place. place < length held.now) }
    ensures last { IfSome result (λ place. remove held.now place ≡ drop_last (same_id id) held.now) }
{
    held.iter().rposition(|h| same_id(id, *h))
}

pub(crate) fn is_among(held: &[Id], id: Id) -> bool
    ensures { IsTrue result ↔ (0 < tally (same_id id) held.now) }
{
    found_at(held, id).is_some()
}

pub(crate) fn forget(held: &mut ArrayVec<Id, 16>, id: Id)
    ensures { held.new.items ≡ drop_last (same_id id) held.old.items }
{
    if let Some(place) = found_at(held.as_slice(), id) {
        take_out(held, place);
    }
}

// Takes out the copy at a place, which is mostly the last.
#[inline(always)]
fn take_out(held: &mut ArrayVec<Id, 16>, place: usize)
    requires { place < length held.old.items }
    ensures { held.new.items ≡ remove held.old.items place }
{
    let len = held.len();
    if place + 1 == len {
        held.pop();
    } else {
        take_from_between(held, place);
    }
}

// Copies that go from between others are rare, so this stands apart and isn't inlined.
#[cold]
#[inline(never)]
fn take_from_between(held: &mut ArrayVec<Id, 16>, place: usize)
    requires { place < length held.old.items }
    ensures { held.new.items ≡ remove held.old.items place }
{
    held.remove(place);
}

// Before the next try, after so many lost ones besides the first. It is for callers that may wait, so that a C library,
// which may not, has no part of it.
#[cold]
fn pause<R: Wait>(_rt: &R, lost: u32) {
    for _ in 1..1u32 << lost.min(6) {
        spin_loop();
    }
}

/// Who pins slots. It holds at most 16 copies, and its calls take no memory and no lock.
#[derive(Drop)]
pub struct Reader {
    words: Arc<Words, Global>,
    shape: Shape,
    pub(crate) seat: Seat<(), View>,
    held: ArrayVec<Id, 16>,
    // A cache line, so that what is written in `held` and the next reader of a `Vec` don't share one.
    _apart: [u64; 8],
    ghost keyed: { (arc_value words).shared.key.shape ≡ shape },
    ghost wide: { (arc_value words).shared.table_id.words ≡ words_of shape.slots },
    ghost within: { IsWithinLimits shape },
    ghost seated: { seat.table_id ≡ (arc_value words).shared.table_id },
    ghost reads: { IsReaders seat.me },
    ghost shaped: { (reader_of seat.me.0).shape ≡ shape },
    ghost holds: { (reader_of seat.me.0).held ≡ held.items },
    ghost inside: { (x : Id) → 0 < tally (same_id x) held.items → x.slot < shape.slots },
}

impl Model for Reader {
    ghost use Rattle.pin_words.specs.Seats.{ReaderState};
    ghost use Rattle.pin_words.specs.Views.{reader_of};

    ghost Value = { ReaderState };

    ghost view = { λ r. record {
      table = record { id = r.seat.table_id; shape = r.shape };
      view = reader_of r.seat.me.0;
    } };
}

impl Reader {
    ghost use Rattle.std.specs.Prelude.{◌≡◌, ◌≢◌, ◌<◌, ◌↔◌, false, [], length, is_some, IfSome, IsTrue};
    ghost use Rattle.std.specs.Prelude.{OnOk, Err};
    ghost use Rattle.std.specs.List.{remove};
    ghost use Rattle.std.specs.Arc.{arc_value};
    ghost use Rattle.pin_core.specs.declared.word.Word.{Word};
    ghost use Rattle.pin_core.specs.declared.shape.Shape.{Shape};
    ghost use Rattle.pin_core.specs.Words.{decoded};
    ghost use Rattle.pin_core.specs.Holds.{tally, drop_last, same_id};
    ghost use Rattle.pin_words.specs.declared.view.ReaderView.{ReaderView};
    ghost use Rattle.pin_words.specs.declared.fault.Verdict.TheVariants as verdict;
    ghost use Rattle.pin_words.specs.declared.fault.PinFault.TheVariants as fault;
    ghost use Rattle.pin_words.specs.Verdicts.{verdict_of};
    ghost use Rattle.pin_core.specs.Shapes.{IsWithinLimits};
    ghost use Rattle.pin_words.specs.Places.{words_of};
    ghost use Rattle.pin_words.specs.Views.{view, reader_looked, reader_got, reader_released, reader_noted};
    ghost use Rattle.pin_words.specs.Plays.{TellsReader};
    ghost use Rattle.pin_words.specs.Stepped.{Pinned, IsHold, ReleaseStep, DescrStep};
    ghost use Rattle.pin_words.specs.Tries.{Tries, TriesUntilSettled, HasOnlyLooked};

    pub(crate) fn of_parts(words: Arc<Words, Global>, shape: Shape, seat: Seat<(), View>) -> Reader
        requires keyed { (arc_value words).shared.key.shape ≡ shape }
        requires wide { (arc_value words).shared.table_id.words ≡ words_of shape.slots }
        requires within { IsWithinLimits shape }
        requires seated { seat.table_id ≡ (arc_value words).shared.table_id }
        requires reads { IsReaders seat.me }
        requires shaped { (reader_of seat.me.0).shape ≡ shape }
        requires empty { (reader_of seat.me.0).held ≡ [] }
        ensures { result ≡ record { table = record { id = seat.table_id; shape = shape }; view = reader_of seat.me.0 } }
    {
        Reader {
            words,
            shape,
            seat,
            held: ArrayVec::new(),
            _apart: [0; 8],
        }
    }

    // One look at the slot.
    #[inline(always)]
    fn look(&mut self, slot: u32) -> u64
        requires { slot < self.old.view.shape.slots }
        ensures view { self.new.view ≡ reader_looked self.old.view slot result }
        ensures tells { TellsReader self.old.view slot result }
        ensures table { self.new.table ≡ self.old.table }
    {
        self.words
            .shared
            .load::<Looks>(&mut self.seat, place_of(slot))
    }

    // Where it lists the last copy of the Id.
    #[inline(always)]
    fn found(&self, id: Id) -> Option<usize>
        ensures found { IsTrue (is_some result) ↔ (0 < tally (same_id id) self.now.view.held) }
        ensures within { IfSome result (λ place. place < length self.now.view.held) }
        ensures last { IfSome result (λ place. remove self.now.view.held place
            ≡ drop_last (same_id id) self.now.view.held) }
    {
        found_at(self.held.as_slice(), id)
    }

    // One more pin where the word is still `found`.
    #[inline(always)]
    fn take(&mut self, id: Id, found: u64) -> u64
        requires slot { id.slot < self.old.view.shape.slots }
        requires go { verdict_of self.old.view.shape.max_pins id (decoded found) ≡ verdict.Go }
        requires room { length self.old.view.held < 16 }
        ensures won { result ≡ found → self.new.view ≡ reader_got self.old.view id found }
        ensures lost { result ≢ found → self.new.view ≡ reader_looked self.old.view id.slot result }
        ensures tells { TellsReader self.old.view id.slot result }
        ensures table { self.new.table ≡ self.old.table }
    {
        // Listed first, since what is written after the exchange delays the next atomic step.
        self.held.push(id);
        let seen = self
            .words
            .shared
            .compare_exchange::<Pinning>(&mut self.seat, place_of(id.slot), found, found + 1);
        if seen != found {
            self.held.pop();
        }
        seen
    }

    /// Pins the slot of an Id once more: at most one look and one exchange.
    ///
    /// Refused, in this order: 1 where there is no such slot; 6 where 16 copies are held; then, by the word that the
    /// look found, 2 where the Id isn't published yet, 3 where its object is given up, which stays so, and 5 where the
    /// slot has all its pins; 4 where the exchange found another word.
    ///
    /// Where it goes through, the look and the exchange were each made on words that show a safe world, and the new
    /// copy is one hold of the world behind them.
    #[inline(always)]
    pub fn try_pin(&mut self, id: Id) -> Result<(), PinFault>
        ensures tries { Tries self.old.view id result self.new.view }
        ensures held { OnOk result (0 < tally (same_id id) self.new.view.held) }
        ensures pinned { OnOk result (Pinned self.old.view id self.new.view) }
        ensures hold { OnOk result (IsHold self.new.view id) }
        ensures shape { self.new.view.shape ≡ self.old.view.shape }
        ensures table { self.new.table ≡ self.old.table }
    {
        if id.slot >= self.shape.slots {
            return Err(PinFault::NoSuchSlot);
        }
        if self.held.is_full() {
            return Err(PinFault::HeldFull);
        }
        let found = self.look(id.slot);
        if !has_pin_free(self.shape.max_pins, id, found) {
            return match judge_found(self.shape.max_pins, id, found) {
                Verdict::Unborn => Err(PinFault::Unborn),
                Verdict::Stale => Err(PinFault::Stale),
                Verdict::PinsFull => Err(PinFault::PinsFull),
                Verdict::Go => unreachable!(),
            };
        }
        let seen = self.take(id, found);
        if seen == found {
            Ok(())
        } else {
            Err(PinFault::Busy {
                seen: Word::decode(seen),
            })
        }
    }

    /// Pins as [`try_pin`](Reader::try_pin) does, again and again while it answers [`PinFault::Busy`]: the second try
    /// follows at once, and before each further one there is a pause, longer each time, of at most 63 turns. Its answer
    /// is that of its last try, before which nothing changed but that it looked.
    pub fn pin<R: Wait>(&mut self, rt: &R, id: Id) -> Result<(), PinFault>
        ensures tries { TriesUntilSettled self.old.view id result self.new.view }
        ensures last { (r : ReaderView) × HasOnlyLooked self.old.view r
            × Tries r id result self.new.view }
        ensures held { OnOk result (0 < tally (same_id id) self.new.view.held) }
        ensures hold { OnOk result (IsHold self.new.view id) }
        ensures shape { self.new.view.shape ≡ self.old.view.shape }
        ensures settled { (w : Word) → result ≢ Err (fault.Busy w) }
        ensures table { self.new.table ≡ self.old.table }
    {
        let mut lost = 0u32;
        for _ in rt.forever() {
            match self.try_pin(id) {
                Err(PinFault::Busy { .. }) => {}
                settled => return settled,
            }
            pause(rt, lost);
            lost = lost.saturating_add(1);
        }
        unreachable!()
    }

    /// Lets one copy of a held Id go, and with the last the note of its descriptor.
    #[inline]
    pub fn release(&mut self, id: Id)
        requires { 0 < tally (same_id id) self.old.view.held }
        ensures view { self.new.view ≡ reader_released self.old.view id }
        ensures steps { ReleaseStep self.old.view id }
        ensures table { self.new.table ≡ self.old.table }
    {
        // First of all, so that what is held is looked through while the next step waits.
        self.words
            .shared
            .fetch_sub::<Releasing>(&mut self.seat, place_of(id.slot), 1);
        forget(&mut self.held, id);
    }

    /// Lets one copy of an Id go as [`release`](Reader::release) does, where one is held, and whether one was. One look
    /// through what is held.
    #[inline(always)]
    pub fn release_if_held(&mut self, id: Id) -> bool
        ensures held { IsTrue result ↔ (0 < tally (same_id id) self.old.view.held) }
        ensures view { IsTrue result → self.new.view ≡ reader_released self.old.view id }
        ensures steps { IsTrue result → ReleaseStep self.old.view id }
        ensures none { result ≡ false → self.new.view ≡ self.old.view }
        ensures table { self.new.table ≡ self.old.table }
    {
        let Some(place) = self.found(id) else {
            return false;
        };
        self.words
            .shared
            .fetch_sub::<Releasing>(&mut self.seat, place_of(id.slot), 1);
        take_out(&mut self.held, place);
        true
    }

    /// The descriptor that was published with a held Id.
    pub fn descr(&mut self, id: Id) -> Descr
        requires { 0 < tally (same_id id) self.old.view.held }
        ensures view { self.new.view ≡ reader_noted self.old.view id result }
        ensures steps { DescrStep self.old.view id result }
        ensures table { self.new.table ≡ self.old.table }
    {
        let word = self
            .words
            .shared
            .load::<Noting>(&mut self.seat, descr_place(id.slot));
        match Descr::decode(word) {
            Some(descr) => descr,
            None => unreachable!(),
        }
    }

    /// Whether it holds a copy of the Id.
    pub fn holds(&self, id: Id) -> bool
        ensures { IsTrue result ↔ (0 < tally (same_id id) self.now.view.held) }
    {
        is_among(self.held(), id)
    }

    /// The Ids that it holds, one for each copy.
    pub fn held(&self) -> &[Id]
        ensures { result.now ≡ self.now.view.held }
    {
        self.held.as_slice()
    }

    /// The slot of a held Id, which is one of the table's.
    pub fn slot_of_held(&self, id: Id) -> u32
        requires { 0 < tally (same_id id) self.now.view.held }
        ensures slot { result ≡ id.slot }
        ensures inside { result < self.now.view.shape.slots }
    {
        let _slots = self.shape.slots;
        id.slot
    }

    /// The shape of its table.
    pub fn shape(&self) -> Shape
        ensures view { result ≡ self.now.view.shape }
        ensures table { result ≡ self.now.table.shape }
    {
        self.shape
    }

    /// Ends a reader that holds nothing.
    pub fn finish(self)
        requires { self.view.held ≡ [] }
    {}
}
