ghost use Rattle.std.specs.Prelude.{◌≡◌, ◌++◌, Bool, false, true, ℕ, List, [], All, IfNone, IfOk, IfSome, OnOk};
ghost use Rattle.pin_core.specs.Worlds.{WorldState};
ghost use Rattle.pin_core.specs.Safety.{AreEvents, IsSafe, reached};
ghost use Rattle.pin_core.specs.declared.event.Event.{Event};
ghost use Rattle.pin_core.specs.declared.shape.Shape.{Shape};
ghost use Rattle.pin_words.specs.Shown.{IsShown, Table};
ghost use Rattle.pin_words.specs.Tries.{Tries};
ghost use Rattle.ob_rights.specs.declared.fault.Fault.{Fault};
ghost use Rattle.ob_tables.specs.declared.limits.Limits.{Limits};
ghost use Rattle.ob_store.specs.Consistent.{IsConsistent};
ghost use Rattle.ob_store.specs.State.{State, Whole, opening};
ghost use Rattle.ob_store.specs.Stored.{MatchesState};
ghost use Rattle.ob_manager.specs.Calls.{Call};
ghost use Rattle.ob_manager.specs.Reaping.{IfReap, IfReaped};
ghost use Rattle.ob_manager.specs.Savestates.{saved};
ghost use Rattle.ob_manager.specs.Steps.{Step, is_lack, reclaim_in};
ghost use Rattle.ob_manager.specs.declared.reply.Reply.{Reply};
ghost use Rattle.ob_manager.specs.declared.reply.Reply.TheVariants.{Refused};
ghost use Rattle.ob_script.specs.Recording.{Recording, recording};
ghost use Rattle.ob_console.specs.Runs.{AnswersAll, AnswersTo, IsEnded, Point};
ghost use Rattle.ob_shared.specs.Closing.{AreWhole, IsCause};
ghost use Rattle.ob_shared.specs.Journal.{IsHistory, IsHistoryFrom, IsOrigin};
ghost use Rattle.ob_shared.specs.Lanes.{LaneState, Lists};
ghost use Rattle.ob_shared.specs.declared.book.Entry.{Entry};
ghost use Rattle.ob_console.specs.Retelling.{FitsEntry, script_of};
ghost use Rattle.obman_theorems.specs.Theorems.{AreAlike, AreOneHistory, IsHeld, IsHeldInWords, IsLeftOpen, IsMade, IsPinned, IsRecounted, IsRefused, IsReplayed, IsRun, IsSaved};
ghost use Rattle.obman_theorems.specs.Theorems.{AreNoted, IsRecord};

use ob_console::{RunFault, Sink, Source, run};
use ob_manager::{Call, Limits, Manager, Reply, Stored};
use ob_shared::{Book, CloseCause, Closed, Lane, NotClosed, Shared};
use pin_core::Id;
use pin_words::{PinFault, PinKeeper, Reader};
use std::alloc::{AllocError, Global};
use std::sync::Wait;

/// The first statement, of every step that is answered with a refusal. That a call is a step is what [`made`] says.
pub fn law_of_total()
    ensures { (w v : Whole) (call : Call) (fault : Fault) → Step w call (Refused fault) v → IsRefused w call fault v }
{}

/// The second statement, of every step between managers that are kept. And two managers of one state answer a call
/// alike and come to one state, unless memory is wanting, or the slot that the call reaps isn't found alike.
pub fn law_of_steps()
    ensures made { (w v : Whole) (call : Call) (reply : Reply) → Step w call reply v → IsConsistent w
        → IsConsistent v → IsMade w call reply v }
    ensures alike { (a b v w : Whole) (call : Call) (r t : Reply) → a.state ≡ b.state → Step a call r v
        → Step b call t w → is_lack r ≡ false → is_lack t ≡ false → reclaim_in r ≡ reclaim_in t
        → (r ≡ t) × (v.state ≡ w.state) }
{}

/// What the second statement leaves open, of every manager that is kept.
pub fn law_of_choices()
    ensures { (w : Whole) → IsConsistent w → IsLeftOpen w }
{}

/// The second statement, and with it the first, of the code: what [`Manager::apply`] does. And a reap answers what the
/// keeper of the slots found.
pub fn made<K: PinKeeper>(manager: &mut Manager<K>, call: &Call) -> Reply
    ensures made { IsMade manager.old call.now result manager.new }
    ensures found { IfReap call.now (λ slot. IfReaped result
        (λ outcome. K.reclaims manager.old.keeper slot outcome manager.new.keeper)) }
{
    manager.kept();
    let reply = manager.apply(call);
    manager.kept();
    reply
}

/// The second statement, of what is stored whenever no call is under way: what [`Manager::stored`] shows.
pub fn stored<K: PinKeeper>(manager: &Manager<K>) -> Stored<'_, K>
    ensures { MatchesState manager.now result }
{
    manager.stored()
}

/// The third statement, of every journal that has all calls since a state.
pub fn law_of_recounts()
    ensures { (from : State) (journal : List Entry) (w : Whole) → IsHistoryFrom from journal w
        → IsRecounted from journal w }
{}

/// The third statement, of the code: of a [`Book`], also of the one under the lock of a [`Shared`], by its type. It
/// began as a new manager, where it has no savestate, or else with what its savestate loads; and what it stores is what
/// that state says.
pub fn recounted<K: PinKeeper>(book: &Book<K>) -> Stored<'_, K>
    ensures new { book.now.saved ≡ [] → IsRecounted (opening book.now.manager.state.limits) book.now.journal
        book.now.manager }
    ensures loaded { (from : State) × IsOrigin book.now.manager.state.limits book.now.saved from
        × IsRecounted from book.now.journal book.now.manager }
    ensures stored { MatchesState book.now.manager result }
{
    book.replays();
    book.stored()
}

/// The third statement, of every run of a script that ended with its input.
pub fn law_of_runs()
    ensures { (more : Bool) (limits : Limits) (input output : List ℕ) → AnswersAll more limits input output
        → IsRun more limits input output }
{}

/// The third statement, of the code: of what [`run`] reads and writes, as the program does with a script. How a run
/// ends that a device or want of memory cuts short is in `IsEnded`.
pub fn ran<R: Source, W: Sink>(
    alloc: Global,
    more: bool,
    limits: Limits,
    reader: &mut R,
    writer: &mut W,
) -> Result<(), RunFault>
    ensures { (input output : List ℕ) × (R.given reader.new ≡ R.given reader.old ++ input)
        × (W.taken writer.new ≡ W.taken writer.old ++ output) × OnOk result (IsRun more limits input output)
        × IsEnded result more limits input output }
{
    run(alloc, more, limits, reader, writer)
}

/// The fourth statement, of every order of possible events, and of every safe world, as the words of running pins show
/// one.
pub fn law_of_pins()
    ensures schedules { (k : Shape) (es : List Event) → AreEvents k es → IsPinned (reached k es) }
    ensures worlds { (w : WorldState) → IsSafe w → IsPinned w }
    ensures words { (k : Shape) (s : Table) (w : WorldState) → IsShown k s w → IsHeldInWords s w }
{}

/// The fourth statement, of the code: of a pin that went through, as [`Reader::try_pin`] makes it. What a pin is
/// refused with, and that it is at most one look and one exchange, is in `Tries`.
pub fn pinned(reader: &mut Reader, id: Id) -> Result<(), PinFault>
    ensures held { OnOk result (IsHeld reader.old.view id reader.new.view) }
    ensures tries { Tries reader.old.view id result reader.new.view }
{
    reader.try_pin(id)
}

/// The fifth statement, of all lists that are whole beside a history.
pub fn law_of_lanes()
    ensures { (given : ℕ) (lanes : List LaneState) (journal : List Entry) (w : Whole) → AreWhole given lanes journal
        → IsHistory journal w → AreOneHistory given lanes journal w }
{}

/// The fifth statement, of a call of a lane: it is listed with its reply, or was answered 8 and isn't listed.
pub fn called<R: Wait>(shared: &Shared, rt: &R, lane: &mut Lane, call: Call) -> Reply
    ensures { Lists lane.old call result lane.new }
{
    shared.call(rt, lane, call)
}

/// The fifth statement, and with it the third, of the code: of what [`Shared::close`] hands out.
pub fn closed(shared: Shared, lanes: Vec<Lane>) -> Result<Closed, NotClosed>
    ensures { IfOk result (λ closed. AreOneHistory shared lanes.items closed.journal.items closed.manager) }
{
    shared.close(lanes)
}

/// The fifth statement, of a [`Book`] without a savestate and of lanes that are handed in: they stand in the book's own
/// history, or this is the first cause why they don't.
pub fn parted<K: PinKeeper>(book: &Book<K>, given: u32, lanes: &[Lane]) -> Option<CloseCause>
    ensures whole { IfNone result (book.now.saved ≡ [] → AreOneHistory given lanes.now book.now.journal
        book.now.manager) }
    ensures cause { IfSome result (λ cause. IsCause given lanes.now book.now.journal cause) }
{
    book.replays();
    book.cause(given, lanes)
}

/// Of savestates, for every two managers of one state: they have one savestate, and answer every list of calls alike.
pub fn law_of_savestates()
    ensures one { (v w : Whole) → IsConsistent v → IsConsistent w → v.state ≡ w.state → saved v ≡ saved w }
    ensures alike { (a b : Whole) → a.state ≡ b.state → AreAlike a b }
{}

/// Of savestates, for the code: of what [`Manager::save`] writes.
pub fn savestate<K: PinKeeper>(manager: &Manager<K>, alloc: Global) -> Result<Vec<u8>, AllocError>
    ensures { IfOk result (λ bytes. IsSaved manager.now bytes.items) }
{
    manager.kept();
    manager.save(alloc)
}

/// Of a journal that is run again as a script, with the lines that `--more` adds, over a manager of the state with which
/// it began.
pub fn law_of_replay()
    ensures { (from : State) (journal : List Entry) (w : Whole) (output : List ℕ) (first last : Point)
        → IsHistoryFrom from journal w → All FitsEntry journal → first.whole.state ≡ from
        → first.more ≡ true → AnswersTo first (script_of journal) output last → IsReplayed journal w output last }
{}

/// Of a record that is begun and told of each call with its reply, as C's functions tell it (`Makes` of `obman_c`).
#[tactic(auto, using(crate::proofs::Recorded::record_is))]
pub fn law_of_records()
    ensures { (journal : List Entry) (r : Recording) → AreNoted (recording [] true) journal r → IsRecord journal r }
{}
