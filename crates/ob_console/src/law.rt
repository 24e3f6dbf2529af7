ghost use Rattle.std.specs.Prelude.{◌≡◌, ℕ, List, All, true};
ghost use Rattle.ob_store.specs.State.{State, Whole};
ghost use Rattle.ob_shared.specs.declared.book.Entry.{Entry};
ghost use Rattle.ob_shared.specs.Journal.{IsHistory, IsHistoryFrom};
ghost use Rattle.ob_console.specs.Runs.{AnswersAll, AnswersTo, Point};
ghost use Rattle.ob_console.specs.Retelling.{FitsEntry, Retells, RetellsTo, script_of};

/// A run of a journal's script under the same limits, with the lines that `--more` adds, prints what its entries were
/// answered, in their order, up to the first line for which memory is wanting, or whose slot isn't taken back as it was.
/// The journal is a history, as [`Book`](ob_shared::Book) and [`Closed`](ob_shared::Closed) hold it; that its numbers fit
/// their types [`script_of`](crate::script_of) says; and a run is what [`run_whole`](crate::run_whole) and the program
/// make.
///
/// And where there is no such line, the run ends in the state that the journal recounts: over a new manager, or over
/// one of the state with which the history began, as [`run_over`](crate::run_over) goes on from a savestate.
pub fn law_of_replay()
    ensures prints { (journal : List Entry) (w : Whole) (output : List ℕ) → IsHistory journal w
        → All FitsEntry journal → AnswersAll true w.state.limits (script_of journal) output → Retells journal output }
    ensures state { (from : State) (journal : List Entry) (w : Whole) (output : List ℕ) (first last : Point)
        → IsHistoryFrom from journal w → All FitsEntry journal → first.whole.state ≡ from
        → first.more ≡ true → AnswersTo first (script_of journal) output last
        → RetellsTo journal output (last.whole.state ≡ w.state) }
{}
