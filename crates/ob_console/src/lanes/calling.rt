ghost use Rattle.std.specs.Prelude.{◌≡◌, IfOk};
ghost use Rattle.ob_script.specs.Commands.{call_in};
ghost use Rattle.ob_console.specs.Calls.{request_in};

use crate::lanes::line::LaneCommand;
use ob_manager::{Call, HandleList};
use ob_script::LineCall;
use ob_shared::Act;
use std::alloc::{AllocError, Global};

/// What a member is to do, with a name of its own, and with handles of its own where it is a wait for these. The
/// refusal is want of memory.
pub fn act_of(alloc: Global, request: LaneCommand<'_>, handles: &[u32]) -> Result<Act, AllocError>
    ensures { IfOk result (λ act. act ≡ request_in handles.now request.entry) }
{
    match request {
        LaneCommand::Ask(ask) => Ok(Act::Ask(call_of(alloc, ask, handles)?)),
        LaneCommand::Pin(id) => Ok(Act::Pin(id)),
        LaneCommand::Unpin(id) => Ok(Act::Unpin(id)),
        LaneCommand::ShowCard(id) => Ok(Act::ShowCard(id)),
        LaneCommand::Block => Ok(Act::Block),
    }
}

/// The call that a line asks for, with a name and handles of its own. The refusal is want of memory.
fn call_of(alloc: Global, ask: LineCall<'_>, handles: &[u32]) -> Result<Call, AllocError>
    ensures { IfOk result (λ call. call ≡ call_in handles.now ask.entry) }
{
    match ask {
        LineCall::WaitFor {
            thread,
            mode,
            timeout,
            handles: _,
        } => Ok(Call::WaitFor {
            thread,
            mode,
            timeout,
            handles: HandleList::new(alloc, handles)?,
        }),
        _ => ask.named(alloc),
    }
}
