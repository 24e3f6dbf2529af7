ghost use Rattle.std.specs.Prelude.{◌≡◌};

use crate::book::{Book, Entered, Entry};
use crate::closing::CloseCause;
use crate::lane::Lane;
use ob_manager::{Call, Card, Manager, Reply};
use ob_rights::Fault;
use pin_core::Id;
use pin_words::{Keeper, Reader};
use std::alloc::Global;
use std::hint::spin_loop;
use std::marker::Model;
use std::sync::{Condvar, Mutex, MutexGuard, Wait};

/// How many lanes there may be.
const LANES_MOST: u32 = 65536;

/// How many times a caller asks for the lock, with a pause behind each, before it waits for it.
const LOOKS: u32 = 3;

/// Steps of the first pause; each later pause is this many times as long as the one before it.
const PAUSES: u32 = 8;

/// What lies under the lock: a book that began with a new manager.
#[derive(Drop)]
struct UnderLock {
    book: Book<Keeper>,
    /// How many callers wait for the book to change, so that a call tells nobody where nobody waits.
    waiting: u32,
}

impl Model for UnderLock {
    ghost use Rattle.std.specs.Prelude.{◌≡◌, []};
    ghost use Rattle.ob_shared.specs.Journal.{BookState};

    ghost Value = { BookState };

    ghost view = { λ held. held.book };

    ghost invariant = { λ held. held.book.saved ≡ [] };
}

impl UnderLock {
    ghost use Rattle.std.specs.Prelude.{IfOk, IfErr, []};
    ghost use Rattle.ob_rights.specs.declared.fault.Fault.TheVariants.{Memory};
    ghost use Rattle.ob_manager.specs.Steps.{Step};

    fn new(book: Book<Keeper>) -> UnderLock
        requires { book.saved ≡ [] }
        ensures { result ≡ book }
    {
        UnderLock { book, waiting: 0 }
    }

    fn book(&self) -> &Book<Keeper>
        ensures { result.now ≡ self.now }
    {
        &self.book
    }

    /// Makes a call by [`Book::enter`], and answers with it how many callers wait for the book to change.
    #[inline(always)]
    fn enter(&mut self, lane: u32, call: &Call, copy: Call) -> (Result<Entered, Fault>, u32)
        requires { copy ≡ call.now }
        ensures entry { IfOk result.0 (λ entered. (entered.lane ≡ lane) × (entered.call ≡ call.now)) }
        ensures step { IfOk result.0 (λ entered. Step self.old.manager call.now entered.reply self.new.manager) }
        ensures memory { IfErr result.0 (λ fault. fault ≡ Memory) }
    {
        let entered = self.book.enter(lane, call, copy);
        (entered, self.waiting)
    }

    /// Counts a caller that begins to wait for the book to change.
    fn begin_wait(&mut self)
        ensures { self.new ≡ self.old }
    {
        self.waiting = self.waiting.saturating_add(1);
    }

    /// Counts a caller that no longer waits for the book to change.
    fn end_wait(&mut self)
        ensures { self.new ≡ self.old }
    {
        self.waiting = self.waiting.saturating_sub(1);
    }

    fn into_book(self) -> Book<Keeper>
        ensures book { result ≡ self }
        ensures new { result.saved ≡ [] }
    {
        self.book
    }
}

/// A manager behind a lock, with its journal. Whoever gets the lock finds a [`Book`]: the manager is kept, and the
/// journal replays to its state. Calls are made in lanes. A contract sees how many lanes there are.
#[derive(Drop)]
pub struct Shared {
    held: Mutex<UnderLock>,
    changed: Condvar,
    alloc: Global,
    lanes: u32,
}

impl Model for Shared {
    ghost use Rattle.std.specs.Prelude.{ℕ};

    ghost Value = { ℕ };

    ghost view = { λ shared. shared.lanes };
}

impl Shared {
    ghost use Rattle.std.specs.Prelude.{ℕ, List, ◌≡◌, ◌≢◌, ◌+◌, ◌<◌, ◌≤◌, [], None, IfOk, IfErr, IfSome};
    ghost use Rattle.std.specs.Prelude.{slice_index_or};
    ghost use Rattle.ob_rights.specs.declared.fault.Fault.TheVariants.{Limit, Memory};
    ghost use Rattle.pin_core.specs.Holds.{tally, same_id};
    ghost use Rattle.ob_store.specs.Waiting.{wait_number};
    ghost use Rattle.ob_waits.specs.Waits.{is_pending};
    ghost use Rattle.ob_store.specs.State.{Whole, opening};
    ghost use Rattle.ob_manager.specs.declared.call.CallOf.TheVariants as calls;
    ghost use Rattle.ob_manager.specs.declared.reply.Reply.{Reply};
    ghost use Rattle.ob_manager.specs.declared.reply.Reply.TheVariants as replies;
    ghost use Rattle.ob_store.specs.Consistent.{IsConsistent};
    ghost use Rattle.ob_shared.specs.declared.book.Entry.{Entry};
    ghost use Rattle.ob_shared.specs.Closing.{AreWhole, IsCause};
    ghost use Rattle.ob_shared.specs.Journal.{IsHistory, replay};
    ghost use Rattle.ob_shared.specs.Lanes.{Lists, lanes_most};

    /// A manager of which no call was made, and no lane.
    pub fn new(alloc: Global, manager: Manager<Keeper>) -> Shared
        requires { manager.state ≡ opening manager.state.limits }
        ensures { result ≡ 0 }
    {
        let book = Book::new(alloc, manager);
        Shared {
            held: Mutex::new(UnderLock::new(book)),
            changed: Condvar::new(),
            alloc,
            lanes: 0,
        }
    }

    pub(crate) fn alloc(&self) -> Global {
        self.alloc
    }

    /// The next lane: lanes are numbered from 0. It is refused with 1450 after 65,536 lanes.
    pub fn lane(&mut self) -> Result<Lane, Fault>
        ensures ok { IfOk result (λ lane. (self.old < lanes_most) × (lane ≡ record { number = self.old; list = [] })
            × (self.new ≡ self.old + 1)) }
        ensures err { IfErr result (λ fault. (fault ≡ Limit) × (lanes_most ≤ self.old) × (self.new ≡ self.old)) }
    {
        if self.lanes >= LANES_MOST {
            return Err(Fault::Limit);
        }
        let lane = Lane::new(self.alloc, self.lanes);
        self.lanes += 1;
        Ok(lane)
    }

    /// Takes the lock. A call holds it for less time than a caller takes to fall asleep and wake, so it is asked for
    /// some times, with a longer pause behind each, before the caller waits for it. Whoever asks takes the lock's word
    /// out of the cache of the one that holds it, so the pauses soon are longer than many calls.
    #[inline(never)]
    fn lock<R: Wait>(&self, rt: &R) -> MutexGuard<'_, UnderLock> {
        let mut pauses = PAUSES;
        for _ in 0..LOOKS {
            if let Some(held) = self.held.try_lock() {
                return held;
            }
            for _ in 0..pauses {
                spin_loop();
            }
            pauses = pauses.saturating_mul(PAUSES);
        }
        self.held.lock(rt)
    }

    /// Makes a call, enters it in the journal, and lists it in its lane. Where memory is wanting before the manager is
    /// asked, the answer is 8, and nothing is changed, entered or listed; an 8 of the manager's own is entered and
    /// listed like any other refusal.
    #[inline(always)]
    #[tactic(auto, using(crate::proofs::LaneLists::are_of_more))]
    pub fn call<R: Wait>(&self, rt: &R, lane: &mut Lane, call: Call) -> Reply
        ensures listed { Lists lane.old call result lane.new }
        ensures number { lane.new.number ≡ lane.old.number }
    {
        if lane.list.reserve(1).is_err() {
            drop(call);
            return Reply::Refused(Fault::Memory);
        }
        match self.enter(rt, lane.number, &call) {
            Ok(entered) => entered.list(&mut lane.list, call),
            Err(fault) => {
                drop(call);
                Reply::Refused(fault)
            }
        }
    }

    /// Makes a call of a lane, and enters it in the journal. The refusal is want of memory (8), and nothing is entered.
    #[inline(never)]
    fn enter<R: Wait>(&self, rt: &R, lane: u32, call: &Call) -> Result<Entered, Fault>
        ensures entry { IfOk result (λ entered. (entered.lane ≡ lane) × (entered.call ≡ call.now)) }
        ensures memory { IfErr result (λ fault. fault ≡ Memory) }
    {
        // (copied before the lock is taken, so that others wait less)
        if call.is_plain() {
            return self.enter_with(rt, lane, call, call.plain_copy());
        }
        self.copy_and_enter(rt, lane, call)
    }

    /// Enters a call whose name or handles are copied for the journal first: a create, an open or a wait.
    #[inline(never)]
    fn copy_and_enter<R: Wait>(&self, rt: &R, lane: u32, call: &Call) -> Result<Entered, Fault>
        ensures entry { IfOk result (λ entered. (entered.lane ≡ lane) × (entered.call ≡ call.now)) }
        ensures memory { IfErr result (λ fault. fault ≡ Memory) }
    {
        let copy = call.copy(self.alloc)?;
        self.enter_with(rt, lane, call, copy)
    }

    /// Enters a call with the copy made for the journal.
    #[inline(always)]
    fn enter_with<R: Wait>(
        &self,
        rt: &R,
        lane: u32,
        call: &Call,
        copy: Call,
    ) -> Result<Entered, Fault>
        requires { copy ≡ call.now }
        ensures entry { IfOk result (λ entered. (entered.lane ≡ lane) × (entered.call ≡ call.now)) }
        ensures memory { IfErr result (λ fault. fault ≡ Memory) }
    {
        let mut held = self.lock(rt);
        let (answer, waiting) = held.enter(lane, call, copy);
        drop(held);
        self.tell(waiting);
        answer
    }

    /// Waits until a wait is no longer pending, and then asks for its result, under the same lock. It may wait forever.
    #[tactic(auto, using(crate::proofs::LaneLists::are_of_more))]
    pub fn block<R: Wait>(&self, rt: &R, lane: &mut Lane, wait: u32) -> Reply
        ensures listed { Lists lane.old (calls.WaitResult wait) result lane.new }
        ensures answered { (w : ℕ) → result ≢ replies.Pending w }
        ensures number { lane.new.number ≡ lane.old.number }
    {
        if lane.list.reserve(1).is_err() {
            return Reply::Refused(Fault::Memory);
        }
        let mut held = self.lock(rt);
        held.begin_wait();
        let mut held = self.changed.wait_while(
            rt,
            held,
            |held| -> bool
                ensures { (result ≡ is_pending (slice_index_or held.entry.now.manager.state.waits
                    (wait_number held.entry.now.manager.state wait) None))
                    × (held.exit.now ≡ held.entry.now) }
            { held.book().is_pending(wait) },
        );
        held.end_wait();
        let ask = Call::WaitResult { wait };
        let copy = Call::WaitResult { wait };
        let (answer, waiting) = held.enter(lane.number, &ask, copy);
        drop(held);
        self.tell(waiting);
        match answer {
            Ok(entered) => entered.list(&mut lane.list, ask),
            Err(fault) => {
                drop(ask);
                Reply::Refused(fault)
            }
        }
    }

    /// Tells those who wait that the book has changed.
    fn tell(&self, waiting: u32) {
        if waiting > 0 {
            self.changed.notify_all();
        }
    }

    /// What the object of an Id that the reader holds was created as: what [`Manager::card`] answers under the lock.
    pub fn inspect<R: Wait>(&self, rt: &R, reader: &Reader, id: Id) -> Option<Card>
        requires { 0 < tally (same_id id) reader.now.view.held }
        ensures { IfSome result (λ card. card.id ≡ id) }
    {
        let _ = reader.slot_of_held(id);
        self.lock(rt).book().card(id)
    }

    /// The manager and its journal, where the lanes that are handed in are whole: they have the numbers that were
    /// given, each once; each entry of the journal is of one of them; and the list of each is its part of the journal.
    /// Otherwise all is handed back with the first cause why they aren't, which is what [`Book::cause`] says of the
    /// book under the lock.
    #[tactic(auto, using(crate::proofs::Journals::is_history))]
    pub fn close(self, lanes: Vec<Lane>) -> Result<Closed, NotClosed>
        ensures kept { IfOk result (λ closed. IsConsistent closed.manager) }
        ensures history { IfOk result (λ closed. IsHistory closed.journal.items closed.manager) }
        ensures state { IfOk result (λ closed. closed.manager.state
            ≡ replay (opening closed.manager.state.limits) closed.journal.items) }
        ensures whole { IfOk result (λ closed. AreWhole self lanes.items closed.journal.items) }
        ensures cause { IfErr result (λ refused. (journal : List Entry) × (w : Whole) × IsHistory journal w
            × IsCause self lanes.items journal refused.cause) }
        ensures back { IfErr result (λ refused. (refused.shared ≡ self) × (refused.lanes ≡ lanes)) }
    {
        let Shared {
            held,
            changed,
            alloc,
            lanes: given,
        } = self;
        let book = held.into_inner().into_book();
        // (for its clauses: they are those of the manager and the journal that are handed out)
        book.replays();
        match book.cause(given, lanes.as_slice()) {
            None => {
                let (manager, journal) = book.into_parts();
                Ok(Closed { manager, journal })
            }
            Some(cause) => Err(NotClosed {
                shared: Shared {
                    held: Mutex::new(UnderLock::new(book)),
                    changed,
                    alloc,
                    lanes: given,
                },
                lanes,
                cause,
            }),
        }
    }
}

/// What a [`Shared`] was, once its lanes are whole.
#[derive(Drop)]
pub struct Closed {
    /// The manager.
    pub manager: Manager<Keeper>,
    /// Its calls, in the order in which they were made.
    pub journal: Vec<Entry>,
}

/// A [`Shared`] that isn't closed, with all that was handed in.
#[derive(Drop)]
pub struct NotClosed {
    /// What was to be closed.
    pub shared: Shared,
    /// The lanes that were handed in.
    pub lanes: Vec<Lane>,
    /// Why it isn't closed.
    pub cause: CloseCause,
}
