//! Handles.
ghost use Rattle.std.specs.Prelude.{◌≡◌};
ghost use Rattle.ob_manager.specs.Handles.{resolve};
ghost use Rattle.ob_manager.specs.declared.call.CallOf.TheVariants as Call;
ghost use Rattle.obman_c.specs.Asking.{mask_of, number_at};
ghost use Rattle.obman_c.specs.Finding.{Finds};
ghost use Rattle.obman_c.specs.Telling.{TellsStatus, TellsValue, flags_in, opening_in};

use crate::status::told;
use crate::values::{Object, Opening, object_of, tell_flags, tell_opening};
use ob_manager::Ask;
use ob_rights::{Rights, code_of};
use obman_c_base::{ManagerOwner, SUCCESS};

/// [`Manager::duplicate`](ob_manager::Manager::duplicate), where the target 0 is none: 0, 87, 170, 6, 5, 1450 or 8.
#[unsafe(no_mangle)]
pub extern "C" fn om_duplicate(
    owner: &mut ManagerOwner,
    thread: u32,
    source: u32,
    handle: u32,
    target: u32,
    access: u32,
    inherit: bool,
    options: u32,
    opening: &mut Opening,
) -> u32
    ensures { TellsValue opening_in owner.old.value
        (Call.Duplicate thread source handle (number_at target)
        (mask_of access) inherit options) result owner.new.value opening.old opening.new }
{
    let target = number_at(target);
    let mask = Rights(access);
    tell_opening(
        owner.call(&Ask::Duplicate {
            thread,
            source,
            handle,
            target,
            mask,
            inherit,
            options,
        }),
        opening,
    )
}

/// A process by its number, and none by 0.
fn number_at(number: u32) -> Option<u32>
    ensures { result ≡ number_at number }
{
    if number == 0 { None } else { Some(number) }
}

/// [`Manager::close`](ob_manager::Manager::close): 0, 87, 170 or 6.
#[tactic(auto, using(crate::proofs::Told::tells))]
#[unsafe(no_mangle)]
pub extern "C" fn om_close(owner: &mut ManagerOwner, thread: u32, handle: u32) -> u32
    ensures { TellsStatus owner.old.value (Call.CloseHandle thread handle) result owner.new.value }
{
    told(owner.call(&Ask::CloseHandle { thread, handle }))
}

/// [`Manager::handle_flags`](ob_manager::Manager::handle_flags): 0, 87, 170 or 6.
#[tactic(auto, using(crate::proofs::Told::tells_as, crate::proofs::Told::flags_same))]
#[unsafe(no_mangle)]
pub extern "C" fn om_handle_flags(
    owner: &mut ManagerOwner,
    thread: u32,
    handle: u32,
    flags: &mut u32,
) -> u32
    ensures step { TellsValue flags_in owner.old.value
        (Call.GetFlags thread handle) result owner.new.value flags.old flags.new }
    ensures same { owner.new.value.manager ≡ owner.old.value.manager }
{
    tell_flags(owner.call(&Ask::GetFlags { thread, handle }), flags)
}

/// [`Manager::set_handle_flags`](ob_manager::Manager::set_handle_flags): 0, 87, 170 or 6.
#[tactic(auto, using(crate::proofs::Told::tells))]
#[unsafe(no_mangle)]
pub extern "C" fn om_set_handle_flags(
    owner: &mut ManagerOwner,
    thread: u32,
    handle: u32,
    mask: u32,
    flags: u32,
) -> u32
    ensures { TellsStatus owner.old.value (Call.SetFlags thread handle mask flags) result owner.new.value }
{
    told(owner.call(&Ask::SetFlags {
        thread,
        handle,
        mask,
        flags,
    }))
}

/// [`Manager::resolve`](ob_manager::Manager::resolve): 0, 87 or 6.
#[unsafe(no_mangle)]
pub extern "C" fn om_resolve(
    owner: &mut ManagerOwner,
    process: u32,
    handle: u32,
    object: &mut Object,
) -> u32
    ensures finds { Finds (resolve owner.old.value.manager.state process handle) result object.old object.new }
    ensures same { owner.new.value ≡ owner.old.value }
{
    match owner.lend().manager.resolve(process, handle) {
        Ok(id) => {
            *object = object_of(id);
            SUCCESS
        }
        Err(fault) => code_of(fault),
    }
}
