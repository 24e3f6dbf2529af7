ghost use Rattle.std.specs.Prelude.{◌≡◌, Some};
ghost use Rattle.ob_manager.specs.Steps.{Step};
ghost use Rattle.ob_script.specs.Commands.{call_in};
ghost use Rattle.ob_console.specs.Runs.{Looks, Spares};

use crate::reaping::meet_at;
use ob_manager::{Manager, Reply};
use ob_script::LineCall;
use pin_words::{Keeper, Reader};

/// Makes a call; `handles` are those of a wait. Where a slot is reaped of which the reader holds something, the two
/// meet.
#[tactic(auto, using(crate::proofs::Sparing::looked))]
pub fn reply_to(
    manager: &mut Manager<Keeper>,
    reader: &mut Reader,
    handles: &[u32],
    ask: &LineCall<'_>,
) -> Reply
    requires { manager.old.keeper.table ≡ Some reader.old.table }
    ensures step { Step manager.old (call_in handles.now ask.now) result manager.new }
    ensures looks { Looks manager.old.keeper (call_in handles.now ask.now) result manager.new.keeper }
    ensures spares { Spares reader.old.view.held (call_in handles.now ask.now) result }
    ensures held { reader.new.view.held ≡ reader.old.view.held }
    ensures table { reader.new.table ≡ reader.old.table }
{
    manager.kept();
    let reply = match ask {
        LineCall::WaitFor {
            thread,
            mode,
            timeout,
            handles: _,
        } => manager.wait(*thread, *mode, *timeout, handles),
        _ => manager.call(ask),
    };
    if let LineCall::Reap { slot } = ask {
        meet_at(manager, reader, *slot);
    }
    reply
}
