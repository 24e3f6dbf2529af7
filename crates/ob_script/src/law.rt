ghost use Rattle.std.specs.Prelude.{◌≡◌, ◌↔◌, ◌⊎◌, ℕ, List, IfSome, None, false, true};
ghost use Rattle.ob_rights.specs.declared.fault.Fault.{Fault};
ghost use Rattle.ob_manager.specs.Calls.{Call};
ghost use Rattle.ob_manager.specs.Steps.{Step};
ghost use Rattle.ob_manager.specs.declared.reply.Reply.{Reply};
ghost use Rattle.ob_manager.specs.declared.reply.Reply.TheVariants.{Refused};
ghost use Rattle.ob_script.specs.Commands.{Asks, Bad};
ghost use Rattle.ob_script.specs.Fitting.{Fits};
ghost use Rattle.ob_script.specs.Grammar.{command_of};
ghost use Rattle.ob_script.specs.Writing.{as_said, line_of};
ghost use Rattle.ob_store.specs.State.{Whole};

/// With the lines that `--more` adds, the grammar reads the line of a call as the call that it says, whatever the call is,
/// and a manager answers that one as the call: the same replies lead to the same states. A call without a line is
/// refused, and nothing changes. That the numbers of a call fit their types [`line_of`](crate::line_of) says.
///
/// And they are added to the lines that there are without it: a line that isn't bad then is the same with them.
pub fn law_of_lines()
    ensures read { (call : Call) → Fits call → IfSome (line_of call) (λ line. command_of true line
        ≡ Asks (as_said call)) }
    ensures alike { (w v : Whole) (call : Call) (reply : Reply) → Step w (as_said call) reply v ↔ Step w call reply v }
    ensures lineless { (w v : Whole) (call : Call) (reply : Reply) → Fits call → line_of call ≡ None
        → Step w call reply v → (v ≡ w) × (fault : Fault) × (reply ≡ Refused fault) }
    ensures added { (line : List ℕ) → (command_of false line ≡ Bad) ⊎ (command_of true line ≡ command_of false line) }
{}
