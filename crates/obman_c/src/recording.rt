//! Calls recorded as lines of a script, with their answers.
ghost use Rattle.std.specs.Prelude.{◌≡◌};
ghost use Rattle.ob_script.specs.Recording.{TakesLines};
ghost use Rattle.obman_c.specs.Noting.{RecordTold, TakeTold};

use ob_rights::{Fault, code_of};
use obman_c_base::{ManagerOwner, SUCCESS, TOO_SMALL};

/// [`Recorder::start`](ob_script::Recorder::start), or [`Recorder::stop`](ob_script::Recorder::stop): 0 or 8.
#[unsafe(no_mangle)]
pub extern "C" fn om_record(owner: &mut ManagerOwner, on: bool) -> u32
    ensures told { RecordTold on owner.old.value.recorder result owner.new.value.recorder }
    ensures manager { owner.new.value.manager ≡ owner.old.value.manager }
    ensures kept { owner.new.value.kept ≡ owner.old.value.kept }
{
    let recorder = &mut owner.lend().recorder;
    if !on {
        recorder.stop();
        return SUCCESS;
    }
    match recorder.start() {
        Ok(()) => SUCCESS,
        Err(_) => code_of(Fault::Memory),
    }
}

/// [`Recorder::take`](ob_script::Recorder::take): 0, or 122 where lines are left and not even the first one fits.
#[unsafe(no_mangle)]
pub extern "C" fn om_take_record(
    owner: &mut ManagerOwner,
    bytes: &mut [u8],
    written: &mut usize,
) -> u32
    ensures lines { TakesLines owner.old.value.recorder.text bytes.old written.new
        owner.new.value.recorder.text bytes.new }
    ensures told { TakeTold written.new owner.new.value.recorder.text result }
    ensures on { owner.new.value.recorder.is_on ≡ owner.old.value.recorder.is_on }
    ensures manager { owner.new.value.manager ≡ owner.old.value.manager }
    ensures kept { owner.new.value.kept ≡ owner.old.value.kept }
{
    let recorder = &mut owner.lend().recorder;
    let count = recorder.take(bytes);
    *written = count;
    if count > 0 || recorder.is_empty() {
        return SUCCESS;
    }
    TOO_SMALL
}
