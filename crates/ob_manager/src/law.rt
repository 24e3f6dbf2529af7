ghost use Rattle.std.specs.Prelude.{◌≡◌, ℕ, List, Ok, false};
ghost use Rattle.ob_codec.specs.Spelling.{AreBytes};
ghost use Rattle.ob_manager.specs.Calls.{Call};
ghost use Rattle.ob_manager.specs.declared.reply.Reply.{Reply};
ghost use Rattle.ob_manager.specs.HostData.{HostData};
ghost use Rattle.ob_manager.specs.Savestates.{load, load_with, saved, saved_with};
ghost use Rattle.ob_manager.specs.Steps.{Step, is_lack, next, reclaim_in};
ghost use Rattle.ob_store.specs.State.{Whole};

/// The state after a call is a function of the state before it, the call and its reply; and no call changes the limits.
/// Two managers of one state answer a call alike and come to one state, unless memory is wanting, or the slot that the
/// call reaps is held in one of the two alone.
pub fn law_of_steps()
    ensures next { (w v : Whole) (call : Call) (reply : Reply) → Step w call reply v
        → v.state ≡ next w.state call reply }
    ensures alike { (a b v w : Whole) (call : Call) (r t : Reply) → a.state ≡ b.state → Step a call r v
        → Step b call t w → is_lack r ≡ false → is_lack t ≡ false → reclaim_in r ≡ reclaim_in t
        → (r ≡ t) × (v.state ≡ w.state) }
    ensures limits { (w v : Whole) (call : Call) (reply : Reply) → Step w call reply v
        → v.state.limits ≡ w.state.limits }
{}

/// Bytes that load are the savestate of the state that they give, so a state has just one savestate; and so with what a
/// host keeps.
pub fn law_of_savestates()
    ensures takes { (bytes : List ℕ) (w : Whole) → AreBytes bytes → load bytes ≡ Ok w → bytes ≡ saved w }
    ensures takes_with { (bytes : List ℕ) (w : Whole) (kept : HostData) → AreBytes bytes
        → load_with bytes ≡ Ok (w, kept) → bytes ≡ saved_with kept w }
{}
