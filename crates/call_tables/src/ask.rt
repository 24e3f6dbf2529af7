ghost use Rattle.std.specs.Prelude.{◌≡◌, IfOk};
ghost use Rattle.ob_manager.specs.Calls.{with_parts};
ghost use Rattle.ob_manager.specs.Makings.{making_of};

use ob_manager::{Ask, Call, Make, Reply};
use std::alloc::{AllocError, Global};

/// A call, and what it is to answer.
pub type Line<'a> = (Ask<'a>, Reply);

/// What a create asks for that has no name and all rights of its kind.
pub const PLAIN: Make<'static> = Make {
    name: None,
    inherit: false,
    access: None,
    grant: None,
};

/// The call, with a name or handles of its own. It is tried twice, and refused where memory was wanting both times.
pub fn to_call(ask: &Ask<'_>, alloc: Global) -> Result<Call, AllocError>
    ensures { IfOk result (λ call. call ≡ with_parts making_of (λ text. text.now) (λ handles. handles.now) ask.now) }
{
    match ask.owned(alloc) {
        Ok(call) => Ok(call),
        Err(_) => ask.owned(alloc),
    }
}
