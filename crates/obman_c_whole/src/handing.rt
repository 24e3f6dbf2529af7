ghost use Rattle.obman_c_whole.specs.Handing.{HandsOver};

use obman_c_base::{SUCCESS, TOO_SMALL};

/// Puts bytes at the front of a room, and says how many there are: 0, or 122 where they don't fit.
pub fn hand_over(bytes: &[u8], room: &mut [u8], length: &mut usize) -> u32
    ensures { HandsOver bytes.now result room.old room.new length.new }
{
    *length = bytes.len();
    if bytes.len() > room.len() {
        return TOO_SMALL;
    }
    room[..bytes.len()].copy_from_slice(bytes);
    SUCCESS
}
