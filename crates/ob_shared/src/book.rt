ghost use Rattle.std.specs.Prelude.{◌≡◌, ◌↔◌, ◌<◌, [], ◌∷◌, ◌++◌, IfNone, IfOk, IfErr, IfSome, IsTrue, None, Ok};
ghost use Rattle.std.specs.Prelude.{slice_index_or, vec_len, vec_capacity};
ghost use Rattle.ob_rights.specs.declared.fault.Fault.TheVariants.{Memory};
ghost use Rattle.ob_store.specs.Waiting.{wait_number};
ghost use Rattle.ob_waits.specs.Waits.{is_pending};
ghost use Rattle.ob_store.specs.Consistent.{IsConsistent};
ghost use Rattle.ob_store.specs.State.{State, Whole, opening};
ghost use Rattle.ob_store.specs.Stored.{MatchesState};
ghost use Rattle.ob_manager.specs.Counting.{card};
ghost use Rattle.ob_manager.specs.Reaping.{IfReap, IfReaped};
ghost use Rattle.ob_manager.specs.Savestates.{load};
ghost use Rattle.ob_manager.specs.Steps.{Step};
ghost use Rattle.ob_shared.specs.Closing.{AreWhole, IsCause};
ghost use Rattle.ob_shared.specs.Journal.{IsOrigin, Continues, replay};

use crate::closing::{CloseCause, cause_of};
use crate::lane::Lane;
use ob_manager::{Call, Card, Manager, Reply, Stored};
use ob_rights::Fault;
use pin_core::Id;
use pin_words::PinKeeper;
use std::alloc::Global;
use std::marker::Model;
use std::snapshot::Snapshot;

/// A call of a lane, with its reply.
#[derive(Drop)]
pub struct Entry {
    /// Who made it.
    pub lane: u32,
    /// The call.
    pub call: Call,
    /// What it was answered with.
    pub reply: Reply,
}

impl Entry {
    /// Whether it is the same call of the same lane, with the same reply.
    pub fn is_same(&self, other: &Entry) -> bool
        ensures { IsTrue result ↔ (self.now ≡ other.now) }
    {
        self.lane == other.lane && self.call.is_same(&other.call) && self.reply == other.reply
    }
}

/// Proof that a call was entered in a journal, with the call. Only a [`Book`] makes one, of a call that it entered, and
/// it can't be copied.
#[derive(Drop)]
pub struct Receipt {
    entry: Entry,
}

impl Model for Receipt {
    ghost use Rattle.ob_shared.specs.declared.book.Entry.{Entry};

    ghost Value = { Entry };

    ghost view = { λ receipt. receipt.entry };
}

impl Receipt {
    /// Who made the call, the call, and its reply.
    pub fn entry(&self) -> &Entry
        ensures { result.now ≡ self.now }
    {
        &self.entry
    }
}

/// Proof that a call was entered in a journal, without the call, which its caller still has. Only a [`Book`] that
/// enters a call makes one, and it can be neither copied nor let go (it isn't `Drop`): so it becomes a receipt, which
/// can.
pub(crate) struct Entered {
    lane: u32,
    asked: Snapshot<Call>,
    reply: Reply,
}

impl Model for Entered {
    ghost use Rattle.ob_shared.specs.declared.book.Entry.{Entry};

    ghost Value = { Entry };

    ghost view = { λ entered. record { lane = entered.lane; call = entered.asked.value; reply = entered.reply } };
}

impl Entered {
    /// The receipt, with the call that was entered.
    #[inline(always)]
    fn receipt(self, call: Call) -> Receipt
        requires { call ≡ self.call }
        ensures { result ≡ self }
    {
        let Entered {
            lane,
            asked: _,
            reply,
        } = self;
        Receipt {
            entry: Entry { lane, call, reply },
        }
    }

    /// Lists the call that was entered, where there is room for one, and gives its reply.
    #[inline(always)]
    pub(crate) fn list(self, receipts: &mut Vec<Receipt>, call: Call) -> Reply
        requires call { call ≡ self.call }
        requires room { vec_len receipts.old < vec_capacity receipts.old }
        ensures listed { receipts.new.items ≡ receipts.old.items ++ self ∷ [] }
        ensures reply { result ≡ self.reply }
    {
        let reply = self.reply;
        receipts.push_reserved(self.receipt(call));
        reply
    }
}

/// A manager, with the journal of its calls, and the savestate with which it began, of no bytes where it began as a new
/// one: together a whole history.
#[derive(Drop)]
pub struct Book<K: PinKeeper> {
    saved: Vec<u8>,
    manager: Manager<K>,
    journal: Vec<Entry>,
    alloc: Global,
}

impl<K: PinKeeper> Model for Book<K> {
    ghost use Rattle.ob_shared.specs.Journal.{BookState, Continues};

    ghost Value = { BookState };

    ghost view = { λ book. record {
      saved = book.saved.items;
      manager = book.manager;
      journal = book.journal.items;
    } };

    ghost invariant = { λ book. Continues book.saved.items book.journal.items book.manager };
}

impl<K: PinKeeper> Book<K> {
    /// A manager of which no call was made, and an empty journal.
    #[tactic(auto, using(crate::proofs::Journals::history_opens))]
    pub fn new(alloc: Global, manager: Manager<K>) -> Book<K>
        requires { manager.state ≡ opening manager.state.limits }
        ensures { result ≡ record { saved = []; manager = manager; journal = [] } }
    {
        manager.kept();
        Book {
            saved: Vec::new(alloc),
            manager,
            journal: Vec::new(alloc),
            alloc,
        }
    }

    /// A manager that goes on from a savestate, which [`Manager::load`] gave or [`Manager::save`] wrote of it, with the
    /// savestate, and an empty journal: what follows is a history from there.
    #[tactic(auto, using(crate::proofs::Journals::history_opens))]
    pub fn resume(alloc: Global, saved: Vec<u8>, manager: Manager<K>) -> Book<K>
        requires { (w : Whole) × (load saved.items ≡ Ok w) × (w.state ≡ manager.state) }
        ensures { result ≡ record { saved = saved.items; manager = manager; journal = [] } }
    {
        manager.kept();
        Book {
            saved,
            manager,
            journal: Vec::new(alloc),
            alloc,
        }
    }

    /// Makes a call of a lane, and enters it in the journal. It is refused for want of memory alone (8), and then
    /// nothing has changed.
    #[inline(always)]
    pub fn enact(&mut self, lane: u32, call: Call) -> Result<Receipt, Fault>
        ensures entered { IfOk result (λ receipt. self.new.journal ≡ self.old.journal ++ receipt ∷ []) }
        ensures entry { IfOk result (λ receipt. (receipt.lane ≡ lane) × (receipt.call ≡ call)) }
        ensures step { IfOk result (λ receipt. Step self.old.manager call receipt.reply self.new.manager) }
        ensures exact { IfOk result (λ receipt. IfReap call (λ slot. IfReaped receipt.reply
            (λ outcome. K.reclaims self.old.manager.keeper slot outcome self.new.manager.keeper))) }
        ensures saved { self.new.saved ≡ self.old.saved }
        ensures memory { IfErr result (λ fault. (fault ≡ Memory) × (self.new ≡ self.old)) }
    {
        let copy = call.copy(self.alloc)?;
        let entered = self.enter(lane, &call, copy)?;
        Ok(entered.receipt(call))
    }

    /// Makes a call of a lane, and enters in the journal the copy of it that was made before. The receipt can be made
    /// later.
    #[inline(always)]
    #[tactic(auto, using(crate::proofs::Journals::history_next))]
    pub(crate) fn enter(&mut self, lane: u32, call: &Call, copy: Call) -> Result<Entered, Fault>
        requires { copy ≡ call.now }
        ensures entered { IfOk result (λ entered. self.new.journal ≡ self.old.journal ++ entered ∷ []) }
        ensures entry { IfOk result (λ entered. (entered.lane ≡ lane) × (entered.call ≡ call.now)) }
        ensures step { IfOk result (λ entered. Step self.old.manager call.now entered.reply self.new.manager) }
        ensures exact { IfOk result (λ entered. IfReap call.now (λ slot. IfReaped entered.reply
            (λ outcome. K.reclaims self.old.manager.keeper slot outcome self.new.manager.keeper))) }
        ensures saved { self.new.saved ≡ self.old.saved }
        ensures memory { IfErr result (λ fault. (fault ≡ Memory) × (self.new ≡ self.old)) }
    {
        self.journal.reserve(1)?;
        let reply = self.manager.apply(call);
        self.manager.kept();
        self.journal.push_reserved(Entry {
            lane,
            call: copy,
            reply,
        });
        Ok(Entered {
            lane,
            asked: Snapshot::of(call),
            reply,
        })
    }

    /// Whether the manager says that a wait is pending.
    pub fn is_pending(&self, wait: u32) -> bool
        ensures { result ≡ is_pending (slice_index_or self.now.manager.state.waits
            (wait_number self.now.manager.state wait) None) }
    {
        self.manager.is_pending(wait)
    }

    /// What the object of an Id was created as, as [`Manager::card`] answers it.
    pub fn card(&self, id: Id) -> Option<Card>
        ensures { result ≡ card self.now.manager.state id }
    {
        self.manager.card(id)
    }

    /// What holds of a book: the manager is kept, its journal has all calls since it began, each of them a step to a
    /// manager that is kept, and its state is the one after them, from that of the savestate or of a new manager.
    pub fn replays(&self)
        ensures kept { IsConsistent self.now.manager }
        ensures history { Continues self.now.saved self.now.journal self.now.manager }
        ensures state { (first : State) × IsOrigin self.now.manager.state.limits self.now.saved first
            × (self.now.manager.state ≡ replay first self.now.journal) }
    {
        let _ = &self.journal;
        self.manager.kept();
    }

    /// Why lanes aren't whole beside the journal, where `given` lane numbers were given: the first that applies of a
    /// lane whose number wasn't given, a number that two lanes have, a number that no lane has, and a list that
    /// differs. There is none where they are whole.
    pub fn cause(&self, given: u32, lanes: &[Lane]) -> Option<CloseCause>
        ensures whole { IfNone result (AreWhole given lanes.now self.now.journal) }
        ensures cause { IfSome result (λ cause. IsCause given lanes.now self.now.journal cause) }
    {
        cause_of(given, lanes, self.journal())
    }

    /// What the manager stores, as [`Manager::stored`] answers it: each slot with its object, the object's body and its
    /// counters, and the directory. It matches the state that [`replays`](Book::replays) tells of.
    pub fn stored(&self) -> Stored<'_, K>
        ensures { MatchesState self.now.manager result }
    {
        self.manager.stored()
    }

    /// The calls, in the order in which they were made.
    pub fn journal(&self) -> &[Entry]
        ensures { result.now ≡ self.now.journal }
    {
        self.journal.as_slice()
    }

    /// The savestate with which the manager began, of no bytes where it began as a new one.
    pub fn saved(&self) -> &[u8]
        ensures { result.now ≡ self.now.saved }
    {
        self.saved.as_slice()
    }

    /// The manager and the journal.
    pub fn into_parts(self) -> (Manager<K>, Vec<Entry>)
        ensures parts { (result.0 ≡ self.manager) × (result.1.items ≡ self.journal) }
        ensures history { Continues self.saved self.journal self.manager }
    {
        (self.manager, self.journal)
    }
}
