//! Savestates.
ghost use Rattle.std.specs.Prelude.{◌≡◌, IfErr, IfOk};
ghost use Rattle.pin_words.specs.Seats.{TableState};
ghost use Rattle.obman_c_whole.specs.Handing.{Gives};
ghost use Rattle.obman_c_whole.specs.Savestates.{Loads, loaded_owned, saved_of};

use crate::handing::hand_over;
use ob_codec::ReadFault;
use ob_manager::{HostData, Manager};
use ob_rights::{Fault, code_of};
use obman_c_base::{INVALID_DATA, ManagerOut, ManagerOwner, OwnedManager, SUCCESS};
use pin_words::LockedPins;
use std::alloc::Global;

/// [`Manager::save_with`](ob_manager::Manager::save_with): 0 with how many bytes were written, 122 with how many it
/// takes where they don't fit, or 8.
#[unsafe(no_mangle)]
pub extern "C" fn om_save(
    alloc: Global,
    owner: &mut ManagerOwner,
    bytes: &mut [u8],
    written: &mut usize,
) -> u32
    ensures saved { Gives (saved_of owner.old.value) result bytes.old bytes.new written.old written.new }
    ensures same { owner.new.value ≡ owner.old.value }
{
    let held = owner.lend();
    match held.manager.save_with(alloc, &held.kept) {
        Ok(saved) => hand_over(saved.as_slice(), bytes, written),
        Err(_) => code_of(Fault::Memory),
    }
}

/// [`Manager::load_with`](ob_manager::Manager::load_with), over words of its own, at a place of C's: 0, 13 where the
/// bytes are no savestate, or 8. What stood at the place isn't read.
#[unsafe(no_mangle)]
pub extern "C" fn om_load(alloc: Global, bytes: &[u8], place: &mut ManagerOut) -> u32
    ensures { Loads bytes.now result place.old.value place.new.value }
{
    match Manager::load_with(alloc, bytes) {
        Ok((manager, kept)) => match held(alloc, manager, kept) {
            Ok(held) => {
                *place = ManagerOut::of(held);
                SUCCESS
            }
            Err(fault) => code_of(fault),
        },
        Err(ReadFault::Memory) => code_of(Fault::Memory),
        Err(ReadFault::Text(_)) => INVALID_DATA,
    }
}

/// A manager that was loaded in a box of its own, over words that begin with its slots, with what the host kept.
fn held(
    alloc: Global,
    manager: Manager<LockedPins>,
    kept: HostData,
) -> Result<Box<OwnedManager>, Fault>
    ensures loaded { IfOk result (λ held. (t : TableState) × (held.value ≡ loaded_owned manager kept t)) }
    ensures memory { IfErr result (λ fault. fault ≡ Fault.Memory) }
{
    let (keeper, _) = manager.words(alloc)?;
    Ok(OwnedManager::boxed(alloc, manager.over(keeper), kept)?)
}
