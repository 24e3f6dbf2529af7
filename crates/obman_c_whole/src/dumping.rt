//! All that a manager holds, as a text.
ghost use Rattle.std.specs.Prelude.{◌≡◌, ℕ, List};
ghost use Rattle.obman_c_whole.specs.Handing.{Gives};

use crate::handing::hand_over;
use ob_rights::{Fault, code_of};
use ob_script::dump;
use obman_c_base::ManagerOwner;
use std::alloc::Global;

/// [`dump`](ob_script::dump): 0 with how many bytes were written, 122 with how many it takes where they don't fit, or 8.
#[unsafe(no_mangle)]
pub extern "C" fn om_dump(
    alloc: Global,
    owner: &mut ManagerOwner,
    text: &mut [u8],
    written: &mut usize,
) -> u32
    ensures told { (told : List ℕ) × Gives told result text.old text.new written.old written.new }
    ensures same { owner.new.value ≡ owner.old.value }
{
    match dump(alloc, &owner.lend().manager) {
        Ok(told) => hand_over(told.as_bytes(), text, written),
        Err(_) => code_of(Fault::Memory),
    }
}
