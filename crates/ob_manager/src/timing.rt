ghost use Rattle.std.specs.Prelude.{◌≡◌, ◌<◌, ◌≤◌, Ok, length};
ghost use Rattle.ob_manager.specs.Checks.{caller};
ghost use Rattle.ob_manager.specs.Steps.{Gives};
ghost use Rattle.ob_manager.specs.Timing.{arm_timer, cancel_timer, moment_of, set_periodic_timer, set_timer, tick};

use crate::checks::{body_of, caller, found, granted, natural};
use crate::reply::Reply;
use ob_rights::{Fault, Kind, Rights};
use ob_store::{LAST_MOMENT, Store};
use pin_words::PinKeeper;

/// The moment that a caller means: a number below 0 is so many units from now.
pub(crate) fn moment_of(now: u64, due: i64) -> u64
    requires { now ≤ LAST_MOMENT }
    ensures { result ≡ moment_of now due }
{
    if due < 0 {
        return now + due.unsigned_abs();
    }
    due.cast_unsigned()
}

/// Sets a timer of a caller's process.
#[inline(always)]
fn arm<K: PinKeeper>(
    store: &mut Store<K>,
    thread: u32,
    process: u32,
    handle: u32,
    due: i64,
    period: u32,
) -> Result<Reply, Fault>
    requires caller { caller store.old.state thread ≡ Ok process }
    requires table { process < length store.old.state.tables }
    ensures { Gives result store.old store.new (arm_timer store.old.state thread handle due period) }
{
    let entry = found(store, process, handle)?;
    let timer = body_of(store, entry.id, Kind::Timer)?;
    granted(Rights::MODIFY_STATE, entry)?;
    let moment = moment_of(store.now(), due);
    store.arm(entry.id, timer, moment, period);
    Ok(Reply::Done)
}

/// Sets a timer.
#[inline(always)]
pub fn set_timer<K: PinKeeper>(
    store: &mut Store<K>,
    thread: u32,
    handle: u32,
    due: i64,
) -> Result<Reply, Fault>
    ensures { Gives result store.old store.new (set_timer store.old.state thread handle due) }
{
    let process = caller(store, thread)?;
    arm(store, thread, process, handle, due, 0)
}

/// Sets a timer with a period in milliseconds.
#[inline(never)]
pub fn set_periodic_timer<K: PinKeeper>(
    store: &mut Store<K>,
    thread: u32,
    handle: u32,
    due: i64,
    period: i32,
) -> Result<Reply, Fault>
    ensures { Gives result store.old store.new (set_periodic_timer store.old.state thread handle due period) }
{
    let process = caller(store, thread)?;
    let Some(millis) = natural(period) else {
        return Err(Fault::Parameter);
    };
    arm(store, thread, process, handle, due, millis)
}

/// Cancels a timer.
pub fn cancel_timer<K: PinKeeper>(
    store: &mut Store<K>,
    thread: u32,
    handle: u32,
) -> Result<Reply, Fault>
    ensures { Gives result store.old store.new (cancel_timer store.old.state thread handle) }
{
    let process = caller(store, thread)?;
    let entry = found(store, process, handle)?;
    let timer = body_of(store, entry.id, Kind::Timer)?;
    granted(Rights::MODIFY_STATE, entry)?;
    store.disarm(entry.id, timer);
    Ok(Reply::Done)
}

/// Sets the clock to a moment that isn't before now.
pub fn tick<K: PinKeeper>(store: &mut Store<K>, now: u64) -> Result<Reply, Fault>
    ensures { Gives result store.old store.new (tick store.old.state now) }
{
    if now < store.now() || now > LAST_MOMENT {
        return Err(Fault::Parameter);
    }
    store.tick(now);
    Ok(Reply::Ticked { now })
}
