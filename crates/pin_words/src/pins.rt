ghost use Rattle.std.specs.Prelude.{◌≡◌, [], length, replicate};
ghost use Rattle.std.specs.Arc.{arc_value};
ghost use Rattle.pin_words.specs.Places.{words_of};
ghost use Rattle.pin_core.specs.Shapes.{IsWithinLimits};
ghost use Rattle.pin_core.specs.Worlds.{opening_slot};
ghost use Rattle.pin_words.specs.Views.{view_with_slots};

use crate::keeper::Keeper;
use crate::places::{lay_all, words_of};
use crate::plays::PinRule;
use crate::reader::Reader;
use crate::view::{Ground, View};
use atomic_table::{Seat, Table};
use ob_rights::Fault;
use pin_core::{Shape, Slot};
use std::alloc::Global;
use std::marker::Model;
use std::sync::Arc;

/// The words of the slots: a pin word for each, and its descriptor.
pub(crate) type Words = Table<(), View, Ground, PinRule, Global>;

/// The words of the slots. The keeper and each reader own them too, and with the last owner they go.
#[derive(Drop)]
pub struct Pins {
    words: Arc<Words, Global>,
    shape: Shape,
    ghost keyed: { (arc_value words).shared.key.shape ≡ shape },
    ghost wide: { (arc_value words).shared.table_id.words ≡ words_of shape.slots },
    ghost within: { IsWithinLimits shape },
}

impl Model for Pins {
    ghost use Rattle.std.specs.Arc.{arc_value};
    ghost use Rattle.pin_words.specs.Seats.{TableState};

    ghost Value = { TableState };

    ghost view = { λ p. record { id = (arc_value p.words).shared.table_id; shape = p.shape } };
}

/// The right to start with pins over given slots, once.
#[derive(Drop)]
pub struct Reopening {
    seat: Seat<(), View>,
    ground: Ground,
    ghost opens: { seat.me ≡ (view_with_slots ground.shape ground.slots.items, []) },
    ghost length_is: { length ground.slots.items ≡ ground.shape.slots },
}

impl Model for Reopening {
    ghost use Rattle.pin_words.specs.Seats.{ReopeningState, reopening};

    ghost Value = { ReopeningState };

    ghost view = { λ o. reopening o.seat.table_id o.ground.shape o.ground.slots.items };
}

/// The right to start with new pins, once.
#[derive(Drop)]
pub struct Opening {
    over: Reopening,
    ghost fresh: { over.slots ≡ replicate over.table.shape.slots opening_slot },
}

impl Model for Opening {
    ghost use Rattle.pin_words.specs.Seats.{TableState};

    ghost Value = { TableState };

    ghost view = { λ o. o.over.table };
}

impl Pins {
    ghost use Rattle.std.specs.Prelude.{◌≡◌, IfOk, IfErr};
    ghost use Rattle.ob_rights.specs.declared.fault.Fault.TheVariants.{Memory};
    ghost use Rattle.pin_core.specs.Opened.{Opens};
    ghost use Rattle.pin_core.specs.Shapes.{IsWithinLimits};

    /// New pins: each slot is free at generation 1 with the descriptor of an event that is reset by itself. The words
    /// take 64 bytes a slot, and 1 MiB at most.
    ///
    /// [`Fault::Memory`] (8) where memory ran out.
    #[tactic(auto, using(crate::proofs::Reseated::fresh_opens))]
    pub fn new(alloc: Global, shape: Shape) -> Result<(Pins, Opening), Fault>
        requires { IsWithinLimits shape }
        ensures ok { IfOk result (λ r. (r.0.shape ≡ shape) × (r.1 ≡ r.0)) }
        ensures err { IfErr result (λ e. e ≡ Memory) }
    {
        let Ok(slots) = vec![in alloc; Slot::opening(); shape.slots as usize] else {
            return Err(Fault::Memory);
        };
        let (pins, over) = Pins::with_slots(alloc, shape, slots)?;
        Ok((pins, Opening { over }))
    }

    /// Pins over given slots, which nobody holds. What is published is the Id of each live or closing slot, with its
    /// descriptor.
    ///
    /// [`Fault::Memory`] (8) where memory ran out.
    #[tactic(auto, using(crate::proofs::Reseated::opens))]
    pub fn with_slots(
        alloc: Global,
        shape: Shape,
        slots: Vec<Slot>,
    ) -> Result<(Pins, Reopening), Fault>
        requires within { IsWithinLimits shape }
        requires opens { Opens shape slots.items }
        ensures ok { IfOk result (λ r. (r.0.shape ≡ shape) × (r.1.table ≡ r.0) × (r.1.slots ≡ slots.items)) }
        ensures err { IfErr result (λ e. e ≡ Memory) }
    {
        let Ok(mut words) = vec![in alloc; 0; words_of(shape.slots)] else {
            return Err(Fault::Memory);
        };
        lay_all(&mut words, slots.as_slice());
        let ground = Ground { shape, slots };
        let Ok((table, seat)) = Table::of_words(alloc, words.as_slice(), &ground) else {
            return Err(Fault::Memory);
        };
        let Ok(words) = Arc::new(alloc, table) else {
            return Err(Fault::Memory);
        };
        Ok((Pins { words, shape }, Reopening { seat, ground }))
    }
}

impl Reopening {
    ghost use Rattle.std.specs.Prelude.{◌≡◌, IfOk, IfErr};
    ghost use Rattle.pin_words.specs.Views.{keeper_with_slots, keeper_gave, reader_given};

    /// The keeper, and reader 1. Where memory ran out the right to start comes back.
    pub fn start(self, pins: &Pins) -> Result<(Keeper, Reader), Reopening>
        requires { self.table ≡ pins.now }
        ensures keeper { IfOk result (λ r. (r.0.table ≡ self.table)
            × (r.0.view ≡ keeper_gave (keeper_with_slots self.table.shape self.slots))) }
        ensures reader { IfOk result (λ r. (r.1.table ≡ self.table)
            × (r.1.view ≡ reader_given (keeper_with_slots self.table.shape self.slots))) }
        ensures err { IfErr result (λ o. o ≡ self) }
    {
        let Ok(words) = Arc::try_clone(&pins.words) else {
            return Err(self);
        };
        let Ok(others) = Arc::try_clone(&pins.words) else {
            return Err(self);
        };
        let Reopening { seat, ground } = self;
        let Ground { shape, slots } = ground;
        let mut keeper = Keeper::of_parts(words, shape, seat, slots);
        let reader = keeper.give(others);
        Ok((keeper, reader))
    }
}

impl Opening {
    ghost use Rattle.std.specs.Prelude.{◌≡◌, IfOk, IfErr};
    ghost use Rattle.pin_words.specs.Views.{opening_keeper, keeper_gave, reader_given};
    ghost use Rattle.pin_words.specs.Laws.{ShowsOpening};

    /// The keeper, and reader 1, and until one of them makes a step the table shows the opening world. Where memory ran
    /// out the right to start comes back.
    #[tactic(auto, using(crate::proofs::Reseated::fresh_keeper))]
    pub fn start(self, pins: &Pins) -> Result<(Keeper, Reader), Opening>
        requires { self ≡ pins.now }
        ensures keeper { IfOk result (λ r. (r.0.table ≡ self)
            × (r.0.view ≡ keeper_gave (opening_keeper self.shape))) }
        ensures reader { IfOk result (λ r. (r.1.table ≡ self)
            × (r.1.view ≡ reader_given (opening_keeper self.shape))) }
        ensures opens { IfOk result (λ r. ShowsOpening r.0.view) }
        ensures err { IfErr result (λ o. o ≡ self) }
    {
        let Opening { over } = self;
        match over.start(pins) {
            Ok(started) => Ok(started),
            Err(over) => Err(Opening { over }),
        }
    }
}
